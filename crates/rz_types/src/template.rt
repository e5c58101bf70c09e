//! A body that keeps the rules, and whether it can be read. See `specs/Rules` and `specs/Readable`.

ghost use Rattle.std.specs.Prelude.{◌≡◌, true, IfOk};
ghost use Rattle.rz_types_fields.specs.Field.{plain_body};
ghost use Rattle.rz_types_fields.specs.Shape.{is_well_shaped};
ghost use Rattle.rz_types.specs.Readable.{is_readable};
ghost use Rattle.rz_types.specs.Rules.{keeps_rules};

use crate::Body;
use rz_core::NoMemory;
use std::alloc::Global;
use std::rc::Rc;

/// A body that has the shape of a declaration and keeps the rules, as `check` of `rz_types_check` gives it. Several
/// templates may share one body, which never changes.
#[derive(Drop)]
pub struct Template {
    body: Rc<Body>,
    readable: bool,
    ghost shaped: { is_well_shaped (plain_body body.value) ≡ true },
    ghost kept: { keeps_rules (plain_body body.value) ≡ true },
    ghost read: { readable ≡ is_readable (plain_body body.value) },
}

impl Template {
    ghost use Rattle.rz_types.specs.Template.{template_of};

    /// The template of a body that has the shape and keeps the rules, with whether it can be read.
    pub fn of(alloc: Global, body: Body, readable: bool) -> Result<Template, NoMemory>
        requires shaped { is_well_shaped (plain_body body) ≡ true }
        requires kept { keeps_rules (plain_body body) ≡ true }
        requires read { readable ≡ is_readable (plain_body body) }
        ensures { IfOk result (λ template. template_of template ≡ plain_body body) }
    {
        match Rc::new(alloc, body) {
            Ok(body) => Ok(Template { body, readable }),
            Err(refused) => {
                drop(refused);
                Err(NoMemory)
            }
        }
    }

    /// A second template that shares the body of this one. No field is copied: the time doesn't grow with the body, and
    /// no memory is taken. Refused where no further template can be counted.
    pub fn share(&self) -> Result<Template, NoMemory>
        ensures { IfOk result (λ template. template_of template ≡ template_of self.now) }
    {
        let body = self.body.clone()?;
        Ok(Template {
            body,
            readable: self.readable,
        })
    }

    /// Whether it can be read.
    pub(crate) fn is_readable(&self) -> bool
        ensures { result ≡ is_readable (template_of self.now) }
    {
        self.readable
    }

    /// Its fields.
    pub fn body(&self) -> &Body
        ensures body { plain_body result.now ≡ template_of self.now }
        ensures shaped { is_well_shaped (template_of self.now) ≡ true }
        ensures kept { keeps_rules (template_of self.now) ≡ true }
    {
        self.body.as_ref()
    }
}
