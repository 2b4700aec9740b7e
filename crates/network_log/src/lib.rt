//! What happens to a network, and what follows from it: what each of its clients and its server is told, and what is put into the
//! node.
//!
//! There is hardly any code. A network is seen as a `World` (`specs/World.antt`), which is what its `Log` makes of the beginning.
//! What may be told over a connection is what such a log gives (`specs/Telling.antt`), and what may be put as well
//! (`specs/Putting.antt`). Read `specs/Facts.antt` first, and then `World`, `Log`, `Truth` and `Telling`.
#![tactic(auto)]

mod origin;
mod serial;

pub use origin::Origin;
pub use serial::FIRST_SERIAL;
