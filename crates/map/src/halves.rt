// The check of a map by halves: a block is one segment, or its two halves are such blocks and not both wholly free.
ghost use Rattle.std.specs.Prelude.{◌≡◌, true, ◌≤◌, eqb, length, drop};
ghost use Rattle.arith.specs.Power.{is_power};
ghost use Rattle.manager.specs.Lists.{every};
ghost use Rattle.manager.specs.Map.{sound_map};
ghost use Rattle.manager.specs.Halves.{halves};

// Whether all words behind the first are 0.
fn rest_zero(map: &[u32]) -> bool
    requires { 1 ≤ length map.now }
    ensures { result ≡ every (λ w. eqb w 0) (drop 1 map.now) }
{
    map[1..].iter().all(|word| *word == 0)
}

// Whether the words, a power of two of them, are a block got by halving.
fn is_block(map: &[u32]) -> bool
    requires { is_power (length map.now) ≡ true }
    ensures { result ≡ sound_map halves.proper map.now }
{
    let n = map.len();
    let first = map[0];
    if (first / 2) as usize == n {
        return rest_zero(map);
    }
    if n == 1 {
        return false;
    }
    let half = n / 2;
    is_block(&map[..half])
        && is_block(&map[half..])
        && !(first as usize == n && map[half] as usize == n)
}

// Whether the words are a sound map of a region by halves.
pub(crate) fn is_sound(map: &[u32]) -> bool
    ensures { result ≡ sound_map halves.proper map.now }
{
    let n = map.len();
    n.next_power_of_two() == n && is_block(map)
}
