// A map's segments, one after another. They are told by its words alone: the words have to be tiled, and no others are read than those that
// start a segment.
ghost use Rattle.std.specs.Prelude.{◌≡◌, true, ◌≤◌, length, drop};
ghost use Rattle.std.specs.Iterator.{YieldsFirst, item_count};
ghost use Rattle.manager.specs.Map.{tiled, decode};
ghost use Rattle.map.specs.Walk.{placed};

// A segment: the place of its word, its pages, and whether it is held.
#[derive(Clone, Copy)]
pub struct Segment {
    pub at: usize,
    pub pages: u32,
    pub held: bool,
}

// The segments of a map from a place on, the lowest first.
#[derive(Drop)]
pub struct Segments<'a> {
    words: &'a [u32],
    at: usize,
    ghost within: { at ≤ length words.now },
    ghost whole: { tiled (drop at words.now) ≡ true },
}

impl<'a> Segments<'a> {
    // All segments of a map.
    pub fn of(words: &'a [u32]) -> Segments<'a>
        requires { tiled words.now ≡ true }
        ensures { placed result.at (decode (drop result.at result.words.now)) ≡ placed 0 (decode words.now) }
    {
        Segments { words, at: 0 }
    }
}

impl<'a> Iterator for Segments<'a> {
    type Item = Segment;

    ghost next_gives = { YieldsFirst (λ s. placed s.at (decode (drop s.at s.words.now))) };

    ghost remaining = { item_count (λ s. placed s.at (decode (drop s.at s.words.now))) };

    #[tactic(auto, using(crate::proofs::Turn::walking))]
    fn next(&mut self) -> Option<Segment> {
        let at = self.at;
        let words = self.words;
        if words.len() <= at {
            return None;
        }
        let word = words[at];
        let pages = word / 2;
        self.at = at + pages as usize;
        Some(Segment {
            at,
            pages,
            held: word % 2 == 1,
        })
    }
}
