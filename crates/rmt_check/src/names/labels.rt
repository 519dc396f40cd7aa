//! Parts of a text that have a name.

ghost use Rattle.std.specs.Prelude.{◌≡◌};
ghost use Rattle.rmt_check.specs.Parts.{Ident as IdentValue};

use crate::source::{ActionText, Declared, HeaderText, Ident, TableText};

/// What has a name, which stands at the place that is told where the name is wrong.
pub trait Labelled {
    ghost ident_of: { Self → IdentValue };

    fn ident(&self) -> &Ident
        ensures { result.now ≡ ident_of self.now };
}

impl Labelled for Ident {
    ghost ident_of = { λ i. i };

    fn ident(&self) -> &Ident {
        self
    }
}

impl Labelled for Declared {
    ghost ident_of = { λ d. d.ident };

    fn ident(&self) -> &Ident {
        &self.ident
    }
}

impl Labelled for HeaderText {
    ghost ident_of = { λ h. h.ident };

    fn ident(&self) -> &Ident {
        &self.ident
    }
}

impl Labelled for ActionText {
    ghost ident_of = { λ a. a.ident };

    fn ident(&self) -> &Ident {
        &self.ident
    }
}

impl Labelled for TableText {
    ghost ident_of = { λ t. t.ident };

    fn ident(&self) -> &Ident {
        &self.ident
    }
}

impl<T: Labelled> Labelled for &T {
    ghost ident_of = { λ r. T.ident_of r.now };

    fn ident(&self) -> &Ident {
        (*self).ident()
    }
}
