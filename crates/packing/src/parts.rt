// The parts of a record and of an answer in their words.
ghost use Rattle.std.specs.Prelude.{refl, Some};
ghost use Rattle.packing.specs.Packing.{region_words, partition_words, waiter_words, region_said, partition_at, waiter_at, notice_words, information_words, information_at};

use crate::words::{FromWords, ToWords};
use crate::{INFORMATION_WORDS, NOTICE_WORDS, PARTITION_WORDS, REGION_WORDS, WAITER_WORDS};
use manager::{Information, Notice, Order, Partition, Region, Waiter};

impl ToWords<REGION_WORDS> for Region {
    ghost words = { region_words };

    ghost exact = { λ r. refl };

    fn to_words(&self) -> [u32; REGION_WORDS] {
        [
            self.name,
            self.generation,
            self.start,
            self.length,
            self.page,
            self.order as u32,
        ]
    }
}

impl FromWords<REGION_WORDS> for Region {
    ghost said = { region_said };

    fn from_words(words: &[u32; REGION_WORDS]) -> Option<Region> {
        let [name, generation, start, length, page, order] = *words;
        Some(Region {
            name,
            generation,
            start,
            length,
            page,
            order: Order::try_from(order).ok()?,
        })
    }
}

impl ToWords<PARTITION_WORDS> for Partition {
    ghost words = { partition_words };

    ghost exact = { λ p. refl };

    fn to_words(&self) -> [u32; PARTITION_WORDS] {
        [
            self.name,
            self.generation,
            self.start,
            self.length,
            self.size,
            self.front,
            self.rear,
            self.free,
        ]
    }
}

impl FromWords<PARTITION_WORDS> for Partition {
    ghost said = { λ ws. Some (partition_at ws 0) };

    fn from_words(words: &[u32; PARTITION_WORDS]) -> Option<Partition> {
        let [name, generation, start, length, size, front, rear, free] = *words;
        Some(Partition {
            name,
            generation,
            start,
            length,
            size,
            front,
            rear,
            free,
        })
    }
}

impl ToWords<WAITER_WORDS> for Waiter {
    ghost words = { waiter_words };

    ghost exact = { λ w. refl };

    fn to_words(&self) -> [u32; WAITER_WORDS] {
        [
            self.task,
            self.region,
            self.size,
            self.alignment,
            self.priority,
            self.ticks,
        ]
    }
}

impl FromWords<WAITER_WORDS> for Waiter {
    ghost said = { λ ws. Some (waiter_at ws 0) };

    fn from_words(words: &[u32; WAITER_WORDS]) -> Option<Waiter> {
        let [task, region, size, alignment, priority, ticks] = *words;
        Some(Waiter {
            task,
            region,
            size,
            alignment,
            priority,
            ticks,
        })
    }
}

impl ToWords<NOTICE_WORDS> for Notice {
    ghost words = { notice_words };

    ghost exact = { λ n. refl };

    fn to_words(&self) -> [u32; NOTICE_WORDS] {
        [self.task, u32::from(self.status), self.address]
    }
}

impl ToWords<INFORMATION_WORDS> for Information {
    ghost words = { information_words };

    ghost exact = { λ i. refl };

    fn to_words(&self) -> [u32; INFORMATION_WORDS] {
        [
            self.free_count,
            self.free_largest,
            self.free_total,
            self.held_count,
            self.held_largest,
            self.held_total,
        ]
    }
}

impl FromWords<INFORMATION_WORDS> for Information {
    ghost said = { λ ws. Some (information_at ws 0) };

    fn from_words(words: &[u32; INFORMATION_WORDS]) -> Option<Information> {
        let [
            free_count,
            free_largest,
            free_total,
            held_count,
            held_largest,
            held_total,
        ] = *words;
        Some(Information {
            free_count,
            free_largest,
            free_total,
            held_count,
            held_largest,
            held_total,
        })
    }
}
