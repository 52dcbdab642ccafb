// The bits of a word that are set, and words of one bit.
ghost use Rattle.std.specs.Prelude.{◌≡◌, ◌*◌, ◌^◌, ◌<◌};
ghost use Rattle.std.specs.Iterator.{at_most};
ghost use Rattle.words.specs.Bits.{Walks};
ghost use mir.Val.{bool_byte};

// A walk over the places of the bits that are set, the lowest first.
#[derive(Drop)]
pub struct Bits(pub u64);

impl Iterator for Bits {
    type Item = u32;

    ghost next_gives = { λ s r t. Walks s.0 r t.0 };

    ghost remaining = { λ s. at_most s.0 };

    fn next(&mut self) -> Option<u32> {
        if self.0 == 0 {
            return None;
        }
        let place = self.0.trailing_zeros();
        self.0 &= self.0 - 1;
        Some(place)
    }
}

// The word whose bit at a place is set where the flag is, and none else. It is shifted there: a product with a flag becomes a branch, which no processor
// guesses.
pub fn flag_at(flag: bool, place: u32) -> u64
    requires { place < 64 }
    ensures { result ≡ bool_byte flag * 2 ^ place }
{
    (flag as u64) << place
}
