// A number that is known to be a page.
ghost use Rattle.std.specs.Prelude.{◌≡◌, ◌<◌};
ghost use Rattle.model.specs.Sizes.{pages};
ghost use Rattle.numbers.specs.declared.Ma.{Ma};
ghost use Rattle.numbers.specs.Lead.{toward};

use host::Ma;
use std::marker::Model;

// In a promise it stands for its number.
#[derive(Clone, Copy)]
pub struct MachinePage {
    pub ma: Ma,
}

impl Model for MachinePage {
    ghost Value = { Ma };

    ghost view = { λ p. p.ma };

    ghost inverse = { λ p. record { ma = p } };

    ghost invariant = { λ p. p.ma.0 < pages };
}

impl MachinePage {
    // None where p is no page.
    pub fn of(p: Ma) -> Option<MachinePage>
        ensures { result ≡ toward p.0 }
    {
        if (p.0 as usize) < host::PAGES {
            Some(MachinePage { ma: p })
        } else {
            None
        }
    }
}
