// read, read_hyper: an access to page p at address a, to which the table in force leads from there.
ghost use Rattle.host.specs.View.{view};
ghost use Rattle.acts.specs.Reads.{Reads};

use super::translate;
use cache::MachinePage;
use host::{Host, Ma, Va};

// The value there. 0 and nothing where p is no page.
pub fn read(h: &mut Host, a: Va, p: Ma) -> u32
    ensures { Reads (view h.old) a.0 p.0 result (view h.new) }
{
    if let Some(page) = MachinePage::of(p) {
        let v = cache::access(h, a, page.ma, None);
        translate(h, a, page.ma);
        v
    } else {
        0
    }
}
