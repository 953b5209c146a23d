//! The six levels of a frame, as holes in the tape.

ghost use Rattle.std.specs.Prelude.{◌≡◌, ◌≤◌, IsSome, IfSome, ◌↔◌};
ghost use Rattle.tape_frames.specs.Holes.{hole_at, holes_of};

/// `o` where the level of this weight is punched, `.` where it is not.
fn hole(frame: u8, weight: u8) -> u8
    requires { 1 ≤ weight }
    ensures { result ≡ hole_at frame weight }
{
    if frame / weight % 2 == 1 { b'o' } else { b'.' }
}

/// The holes of a frame: level 0, the lowest bit, first; `o` for a hole and `.` for none.
/// `None` for a frame above 63.
pub fn holes(frame: u8) -> Option<[u8; 6]>
    ensures some { IsSome result ↔ (frame ≤ 63) }
    ensures value { IfSome result (λ row. row ≡ holes_of frame) }
{
    if frame > 63 {
        return None;
    }
    Some([
        hole(frame, 1),
        hole(frame, 2),
        hole(frame, 4),
        hole(frame, 8),
        hole(frame, 16),
        hole(frame, 32),
    ])
}
