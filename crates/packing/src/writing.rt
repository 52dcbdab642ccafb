// Numbers into bytes.
ghost use Rattle.std.specs.Prelude.{◌≡◌, ◌+◌, ◌≤◌, length};
ghost use Rattle.std.proofs.lemmas.List.Edits.{sets};
ghost use Rattle.packing.specs.Writing.{spread, bits_of};

// Writes a number into the four bytes from `at` on.
pub fn put_number(out: &mut [u8], at: usize, z: i32)
    requires { at + 4 ≤ length out.old }
    ensures { out.new ≡ sets out.old at (spread 4 (bits_of z)) }
{
    out[at..at + 4].copy_from_slice(&z.to_le_bytes());
}
