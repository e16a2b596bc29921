//! Laws: what is promised of processes over one database file.

ghost use Rattle.portal_file.specs.Chain.{KeptOverFiles, PromisedOverFiles};

use portal_core::laws::{published_best, run_good};

/// Law: processes work over one database file in turn, as the functions of this crate do, and each
/// finds what the one before may leave. At first the files hold a good world, as `make_file` leaves
/// them. Then the requests of all processes are a run from this world, with the replies that were
/// given; but a request with the reply 503 may have been carried out. At the end the files hold the
/// run's last world. Each world is good, so each published result is stable; it is the students'
/// best, and no student's or lecturer's request changes another's view. Compare this with any other
/// run. If a caller gets no 503, starts with the same view and hears the same in both, then the texts
/// of the caller's replies are equal byte for byte, and so is the last view.
pub fn kept_over_files()
    ensures { KeptOverFiles }
{
    run_good();
    published_best();
}

/// Law: if no reply is 503, the requests of all processes have the main promise, with the replies
/// that were given; and at the end the files hold the world after the last request. Where the bytes
/// of a process are known, as `pipe_file` can know them, the replies are those written (`Tells`).
pub fn promised_over_files()
    ensures { PromisedOverFiles }
{
    run_good();
    published_best();
}
