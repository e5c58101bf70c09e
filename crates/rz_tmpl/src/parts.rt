//! The fields of bodies whose entries are read from the last to the first; changed only with `specs/Parts`.

ghost use Rattle.std.specs.Prelude.{◌≡◌, ℕ, ◌+◌, ◌<◌, [], ◌∷◌, ◌++◌, IfOk, List, reverse};
ghost use Rattle.rz_tmpl.specs.Body.{lists_of};
ghost use Rattle.rz_tmpl.specs.Parts.{body_in, closing_of, nothing, Goes, Holds, IsPart};
ghost use Rattle.rz_tmpl.specs.Items.{list, none, Items};
ghost use Rattle.rz_types_fields.specs.Field.{field_and, plain_body, plain_field};

use crate::closing::Closing;
use crate::field::{count_field, field_of, list_field};
use crate::{Entry, ListForm};
use rz_core::NoMemory;
use rz_types::{Body, Field};
use std::alloc::Global;

/// The last fields of a body.
#[derive(Drop)]
pub struct Part {
    /// The fields, the last first.
    pub fields: Vec<Field>,
    /// The number of the first counted list of the body itself among them, or that of the next one after.
    pub next: u64,
    /// Where the bytes of the fields end.
    pub closing: Closing,
}

/// What the last entries make.
#[derive(Drop)]
pub struct Parts {
    /// The part of the innermost body.
    pub inner: Part,
    /// Those of the bodies around it, the innermost of them last.
    pub outer: Vec<Part>,
    /// The number of the first counted list of all, or that of the next one after.
    pub number: u64,
}

impl Part {
    /// No fields, before a counted list of this number.
    fn new(alloc: Global, next: u64) -> Part
        ensures fields { result.fields.items ≡ [] }
        ensures next { result.next ≡ next }
        ensures closing { result.closing ≡ closing_of none }
    {
        Part {
            fields: Vec::new(alloc),
            next,
            closing: Closing::new(),
        }
    }

    /// The fields with one before them, which end so then.
    fn with(self, field: Field, closing: Closing) -> Result<Part, NoMemory>
        ensures body { IfOk result (λ part. body_in part ≡ field_and (plain_field field) (body_in self)) }
        ensures next { IfOk result (λ part. part.next ≡ self.next) }
        ensures closing { IfOk result (λ part. part.closing ≡ closing) }
    {
        let Part {
            mut fields,
            next,
            closing: _,
        } = self;
        fields.push(field)?;
        Ok(Part {
            fields,
            next,
            closing,
        })
    }

    /// With the counted list of this number before them, which has this row.
    fn with_counted(self, alloc: Global, number: u64, row: Part) -> Result<Part, NoMemory>
        ensures { (lists : ℕ) (items rest : Items) → number ≡ lists + 1 → IsPart (lists + 1 + 1) items row → IsPart (lists + 1 + 1 + lists_of items) rest self
            → IfOk result (IsPart (lists + 1) (list ListForm.Counted items rest)) }
    {
        let closing = self.closing.with_list(ListForm::Counted, row.closing);
        let list = list_field(alloc, Some(number), row.into_body())?;
        let Part {
            fields,
            next: _,
            closing: _,
        } = self.with(list, closing)?;
        Ok(Part {
            fields,
            next: number,
            closing,
        })
    }

    /// With a list without a count before them, which has this row.
    fn with_list(self, alloc: Global, row: Part) -> Result<Part, NoMemory>
        ensures { (number : ℕ) (items rest : Items) → IsPart number items row → IsPart (number + lists_of items) rest self
            → IfOk result (IsPart number (list ListForm.Uncounted items rest)) }
    {
        let closing = self.closing.with_list(ListForm::Uncounted, row.closing);
        let list = list_field(alloc, None, row.into_body())?;
        self.with(list, closing)
    }

    /// The fields in order.
    pub fn into_body(self) -> Body
        ensures { plain_body result ≡ body_in self }
    {
        let Part {
            mut fields,
            next: _,
            closing: _,
        } = self;
        fields.reverse();
        Body::from_vec(fields)
    }
}

impl Parts {
    /// Nothing, where the next counted list has this number.
    pub fn new(alloc: Global, number: u64) -> Parts
        ensures { (lists : ℕ) → number ≡ lists + 1 → Holds lists nothing result }
    {
        Parts {
            inner: Part::new(alloc, number),
            outer: Vec::new(alloc),
            number,
        }
    }

    /// The same with the entry before them.
    pub fn with(self, alloc: Global, entry: Entry) -> Result<Parts, NoMemory>
        requires { 0 < self.number }
        ensures { IfOk result (λ parts. Goes self entry parts) }
    {
        match entry {
            Entry::One(plain) => {
                let closing = self.inner.closing.with_plain(plain);
                self.with_field(field_of(alloc, plain), closing)
            }
            Entry::Count(form) => {
                let field = count_field(alloc, form, self.inner.next)?;
                let closing = self.inner.closing.with_count();
                self.with_field(field, closing)
            }
            Entry::Start(form) => self.around_list(alloc, form),
            Entry::End => self.in_list(alloc),
        }
    }

    /// The same with a field before them, and where the bytes of the innermost body end then.
    fn with_field(self, field: Field, closing: Closing) -> Result<Parts, NoMemory>
        ensures body { IfOk result (λ parts. body_in parts.inner ≡ field_and (plain_field field) (body_in self.inner)) }
        ensures next { IfOk result (λ parts. parts.inner.next ≡ self.inner.next) }
        ensures closing { IfOk result (λ parts. parts.inner.closing ≡ closing) }
        ensures outer { IfOk result (λ parts. parts.outer.items ≡ self.outer.items) }
        ensures number { IfOk result (λ parts. parts.number ≡ self.number) }
    {
        let Parts {
            inner,
            outer,
            number,
        } = self;
        Ok(Parts {
            inner: inner.with(field, closing)?,
            outer,
            number,
        })
    }

    /// The end of a list before them.
    fn in_list(self, alloc: Global) -> Result<Parts, NoMemory>
        ensures fields { IfOk result (λ parts. parts.inner.fields.items ≡ []) }
        ensures next { IfOk result (λ parts. parts.inner.next ≡ self.number) }
        ensures closing { IfOk result (λ parts. parts.inner.closing ≡ closing_of none) }
        ensures outer { IfOk result (λ parts. parts.outer.items ≡ self.outer.items ++ self.inner ∷ []) }
        ensures number { IfOk result (λ parts. parts.number ≡ self.number) }
    {
        let Parts {
            inner,
            mut outer,
            number,
        } = self;
        outer.push(inner)?;
        Ok(Parts {
            inner: Part::new(alloc, number),
            outer,
            number,
        })
    }

    /// The start of a list before them.
    fn around_list(self, alloc: Global, form: ListForm) -> Result<Parts, NoMemory>
        requires { 0 < self.number }
        ensures { IfOk result (λ parts. Goes self (Entry.Start form) parts) }
    {
        let Parts {
            inner,
            mut outer,
            number,
        } = self;
        let around = last_of(alloc, &mut outer, number);
        match form {
            ListForm::Counted => {
                let number = number - 1;
                let inner = around.with_counted(alloc, number, inner)?;
                Ok(Parts {
                    inner,
                    outer,
                    number,
                })
            }
            ListForm::Uncounted => {
                let inner = around.with_list(alloc, inner)?;
                Ok(Parts {
                    inner,
                    outer,
                    number,
                })
            }
        }
    }
}

/// Takes the last part; where there is none it is one without fields.
fn last_of(alloc: Global, parts: &mut Vec<Part>, number: u64) -> Part
    ensures { (last : Part) (others : List Part) → reverse parts.old.items ≡ last ∷ others → (result ≡ last) × (reverse parts.new.items ≡ others) }
{
    match parts.pop() {
        Some(part) => part,
        None => Part::new(alloc, number),
    }
}
