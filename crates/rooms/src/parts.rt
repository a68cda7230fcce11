// How the room stands, and which bytes of the buffers are its medium and its cache.
ghost use Rattle.std.specs.Prelude.{◌≡◌, ◌≤◌};
ghost use Rattle.rooms.specs.Room.{fresh_length, right_length};

// The stage is 1 without a medium, 2 with one, 3 with one that is opened; the sizes L and D with which it is opened,
// and how many bytes it has.
#[derive(Clone, Copy)]
pub struct Standing {
    pub stage: u8,
    pub blocks: u64,
    pub pages: u64,
    pub bytes: usize,
}

impl Standing {
    ghost use Rattle.rooms.specs.Parts.{stage_of, medium_part, cache_part};

    // The stage that the room has reached.
    #[tactic(auto, unfolding(crate::specs::Parts::stage_of))]
    pub fn reached(self) -> u8
        ensures { result ≡ stage_of self }
    {
        self.stage.clamp(1, 3)
    }

    // How many bytes of the buffer are the medium.
    #[tactic(auto, unfolding(crate::specs::Parts::medium_part))]
    pub fn medium_part(self) -> usize
        ensures value { result ≡ medium_part self }
        ensures upper_bound { result ≤ 50688 }
    {
        if self.stage < 2 {
            0
        } else {
            self.bytes.min(50688)
        }
    }

    // How many bytes of the buffer are the cache.
    #[tactic(auto, unfolding(crate::specs::Parts::cache_part))]
    pub fn cache_part(self) -> usize
        ensures value { result ≡ cache_part self }
        ensures upper_bound { result ≤ 32768 }
    {
        if self.stage < 3 {
            0
        } else {
            right_length(self.pages)
        }
    }
}

// The length of a medium of these sizes; 0 where they are out of range.
#[tactic(auto, using(store::proofs::FitLaws::range_of), unfolding(crate::specs::Room::fresh_length, fields::specs::Block::medium_length))]
pub fn fresh_length(blocks: u64, pages: u64) -> usize
    ensures value { result ≡ fresh_length blocks pages }
    ensures upper_bound { result ≤ 50688 }
{
    if memory::fit::in_range(blocks, pages) {
        layout::place::medium_length(blocks, pages)
    } else {
        0
    }
}

// The length of a cache of so many pages; 0 where they are out of range.
#[tactic(auto, unfolding(crate::specs::Room::right_length, fields::specs::Block::cache_length))]
pub fn right_length(pages: u64) -> usize
    ensures value { result ≡ right_length pages }
    ensures upper_bound { result ≤ 32768 }
{
    if pages <= 64 {
        layout::place::cache_length(pages)
    } else {
        0
    }
}
