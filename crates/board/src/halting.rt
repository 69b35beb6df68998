ghost use Rattle.std.specs.Prelude.{◌≡◌};
ghost use Rattle.board_laws.specs.Steps.{cause_after};

use board_laws::Cause;

/// The cause that is held after a halt.
pub fn cause_after(held: Option<Cause>, cause: Cause) -> Option<Cause>
    ensures { result ≡ cause_after held cause }
{
    match (held, cause) {
        (None, Cause::Memory) => Some(Cause::Memory),
        (_, Cause::Journal) => Some(Cause::Journal),
        _ => held,
    }
}
