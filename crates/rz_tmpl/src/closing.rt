//! Where the bytes of a body end, told with its entries from the last to the first; changed only with `specs/Closed`.

ghost use Rattle.std.specs.Prelude.{◌≡◌};
ghost use Rattle.rz_tmpl.specs.Parts.{closing_of};
ghost use Rattle.rz_tmpl.specs.Items.{count, list, none, one, Items};
ghost use Rattle.rz_tmpl.specs.declared.entry.CountForm.TheVariants.{Rows};

use crate::{ListForm, Plain};

/// Which lengths and ends the entries of a body have.
#[derive(Clone, Copy, Drop)]
pub struct Closing {
    /// Whether all have a fixed length.
    pub fixed: bool,
    /// Whether they may be those of a row.
    pub inner: bool,
    /// Whether they may be those of a template that can be read.
    pub closed: bool,
}

impl Closing {
    /// That of no entries.
    pub fn new() -> Closing
        ensures { result ≡ closing_of none }
    {
        Closing {
            fixed: true,
            inner: true,
            closed: true,
        }
    }

    /// With an entry before them that is a field by itself.
    pub fn with_plain(self, plain: Plain) -> Closing
        ensures { (rest : Items) → self ≡ closing_of rest → result ≡ closing_of (one plain rest) }
    {
        match plain {
            Plain::Rest => Closing {
                fixed: false,
                inner: false,
                closed: self.fixed,
            },
            Plain::Aligned(_) | Plain::Pascal | Plain::ZeroEnded => Closing {
                fixed: false,
                ..self
            },
            Plain::Number(_, _)
            | Plain::Character
            | Plain::TypeName
            | Plain::Rectangle
            | Plain::Zeros(_) => self,
        }
    }

    /// With a count before them, of either form: both have one end.
    pub fn with_count(self) -> Closing
        ensures { (rest : Items) → self ≡ closing_of rest → result ≡ closing_of (count Rows rest) }
    {
        Closing {
            fixed: false,
            ..self
        }
    }

    /// With a list before them whose row has this one.
    pub fn with_list(self, form: ListForm, row: Closing) -> Closing
        ensures { (items rest : Items) → row ≡ closing_of items → self ≡ closing_of rest → result ≡ closing_of (list form items rest) }
    {
        match form {
            ListForm::Counted => Closing {
                fixed: false,
                inner: row.inner && self.inner,
                closed: row.inner && self.closed,
            },
            ListForm::Uncounted => Closing {
                fixed: false,
                inner: false,
                closed: row.inner && self.fixed,
            },
        }
    }
}
