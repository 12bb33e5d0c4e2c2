// The event at which every grain is stepped to one time.
ghost use Rattle.std.specs.Prelude.{◌≡◌};
ghost use Rattle.model.specs.declared.Event.TheVariants as event;

use model::{Event, Pending};

pub fn schedule(time: f64) -> Pending
    ensures { result ≡ record { time = time; event = event.Synchronisation } }
{
    Pending {
        time,
        event: Event::Synchronisation,
    }
}
