//! Fields by their names.
ghost use Rattle.std.specs.Prelude.{◌≡◌, OnOk, OnErr, option_map, false};
ghost use Rattle.std.specs.FinMap as finite;
ghost use Rattle.std.specs.List.{prefix_len};
ghost use Rattle.std.specs.Ordering.{is_gt};
ghost use Rattle.clip_words.specs.Order.{bytes_cmp};

use crate::field::Field;
use clip_words::NoMemory;
use std::alloc::Global;
use std::marker::Model;

/// Fields of distinct names, in the byte order of their names; seen as the map from each name to its words.
#[derive(Debug, Drop)]
pub(crate) struct FieldMap {
    fields: Vec<Field>,
}

impl Model for FieldMap {
    ghost use Rattle.std.specs.Prelude.{T};
    ghost use Rattle.std.specs.FinMap as finite;
    ghost use Rattle.clip_words.specs.Order.{bytes_cmp};
    ghost use Rattle.clip_meaning.specs.Article.{Fields, fields_code};

    ghost Value = { Fields };

    ghost coded = { fields_code };

    ghost view = { λ m. finite.from_sorted m.fields.items };

    ghost invariant = { λ m. T (finite.is_sorted bytes_cmp m.fields.items) };
}

impl FieldMap {
    /// No fields.
    pub(crate) fn new(alloc: Global) -> FieldMap
        ensures { result ≡ finite.empty }
    {
        FieldMap {
            fields: Vec::new(alloc),
        }
    }

    /// The fields in order.
    pub(crate) fn as_slice(&self) -> &[Field]
        ensures { result.now ≡ finite.entries self.now }
    {
        &self.fields
    }

    /// How many names are below this one.
    fn place(&self, name: &str) -> usize
        ensures { result ≡ prefix_len (λ e. is_gt (bytes_cmp name.now e.0)) (finite.entries self.now) }
    {
        self.as_slice().partition_point(
            |field: &Field| -> bool
                ensures { result ≡ is_gt (bytes_cmp name.entry.now field.now.0) }
            { name > field.name().as_str() },
        )
    }

    /// The field of a name.
    pub(crate) fn get(&self, name: &str) -> Option<&Field>
        ensures { option_map (λ field. field.now.1) result ≡ finite.get self.now name.now }
    {
        let field = self.as_slice().get(self.place(name))?;
        if field.name().as_str() == name {
            Some(field)
        } else {
            None
        }
    }

    /// Adds a field whose name is new; where an allocation failed, nothing changes.
    pub(crate) fn insert(&mut self, field: Field) -> Result<(), NoMemory>
        requires { finite.contains_key self.old field.0 ≡ false }
        ensures ok { OnOk result (self.new ≡ finite.insert self.old field.0 field.1) }
        ensures err { OnErr result (self.new ≡ self.old) }
    {
        let place = self.place(field.name().as_str());
        self.fields.insert(place, field)?;
        Ok(())
    }
}
