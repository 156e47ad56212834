//! The fields of a head.
ghost use Rattle.std.specs.Prelude.{◌≡◌, MatchOption, Some, None};
ghost use Rattle.http_edge.specs.Fields.{field_value};

use crate::text::is_word;
use event_form::Blob;
use std::marker::Model;

/// A field line of a head (RFC 9112, section 5): its name as it was written, and its value without the
/// white space around it.
#[derive(Drop)]
pub struct Field {
    pub name: Blob,
    pub value: Blob,
}

/// The fields of a head in their order. Contracts see them as a list of fields.
#[derive(Drop)]
pub struct Fields {
    lines: Vec<Field>,
}

impl Model for Fields {
    ghost use Rattle.std.specs.Prelude.{List};
    ghost use Rattle.http_edge.specs.declared.field.Field.{Field};

    ghost Value = { List Field };

    ghost view = { λ f. f.lines.items };
}

impl Fields {
    /// These fields. It takes no memory.
    pub fn of(lines: Vec<Field>) -> Fields
        ensures { result ≡ lines.items }
    {
        Fields { lines }
    }

    /// The fields, one after another.
    pub fn as_slice(&self) -> &[Field]
        ensures { result.now ≡ self.now }
    {
        self.lines.as_slice()
    }

    /// The value of the first field of this name, ASCII case aside; `None` exactly where no field has the
    /// name. It takes no memory.
    pub fn value(&self, name: &[u8]) -> Option<&[u8]>
        ensures { MatchOption result (field_value name.now self.now ≡ None) (λ value. field_value name.now self.now ≡ Some value.now) }
    {
        first_value(self.as_slice(), name)
    }
}

/// The value of the first field of a name, ASCII case aside.
pub fn first_value<'f>(fields: &'f [Field], name: &[u8]) -> Option<&'f [u8]>
    ensures { MatchOption result (field_value name.now fields.now ≡ None) (λ value. field_value name.now fields.now ≡ Some value.now) }
{
    for field in fields {
        if is_word(field.name.bytes(), name) {
            return Some(field.value.bytes());
        }
    }
    None
}
