// A measured shift gets its sign.
ghost use Rattle.std.specs.Prelude.{◌≡◌};
ghost use Rattle.mounts.specs.Signs.{on_port, vector_on};

use answers::Fault;
use mounts::Shift;

// The vector of a shift that was measured on a port mount.
fn on_port(shift: Shift) -> Result<Shift, Fault>
    ensures { result ≡ on_port shift.x shift.y }
{
    if shift.x == i16::MIN {
        return Err(Fault {
            number: 23,
            place: 0,
        });
    }
    Ok(Shift {
        x: -shift.x,
        y: shift.y,
    })
}

// The vector of a measured shift on a side.
pub fn turn(side: u32, shift: Shift) -> Result<Shift, Fault>
    ensures { result ≡ vector_on side shift }
{
    match side {
        0 => Ok(shift),
        1 => on_port(shift),
        _ => Err(Fault {
            number: 22,
            place: 0,
        }),
    }
}
