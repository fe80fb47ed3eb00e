// What every slice of bytes keeps.
ghost use Rattle.std.specs.Prelude.{◌≡◌, ℕ, ◌<◌, length, slice_index};
ghost use Rattle.backplane.specs.Plane.{Sector};

// Each element of the slice is below 256. Only the proof has a use for this: where one element is read, all are known to fit.
pub fn below_256(bytes: &[u8])
    ensures { (i : ℕ) → i < length bytes.now → slice_index bytes.now i < 256 }
{
    if bytes.len() > 0 {
        let _first = bytes[0];
    } else {
        // no slice with an element goes unread
        prove!(bytes.len() == 0);
    }
}

// 512 bytes are a sector, for the proof alone.
pub fn sector(bytes: &[u8])
    ensures { length bytes.now ≡ 512 → Sector bytes.now }
{
    below_256(bytes);
}
