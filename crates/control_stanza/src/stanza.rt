//! Stanzas and their fields.
ghost use Rattle.std.specs.Prelude.{◌≡◌, ◌↔◌, IsTrue, IfOk, OnOk, OnErr, ◌++◌, ◌∷◌, [], true, false, Option};
ghost use Rattle.std.specs.Option.{option_copied};
ghost use Rattle.control_stanza.specs.Lines.{has_return, has_line_end};
ghost use Rattle.control_stanza.specs.Fields.{has_name as name_is_there, same_name, value_of, without_name, is_stanza, is_field, is_further_line};
ghost use Rattle.control_stanza.specs.Reading.{go_on as gone_on};

use crate::text::Text;
use std::alloc::{AllocError, Global};
use std::marker::Model;

/// A field of a stanza. The value's lines are parted by LF; the first has no blank at either end, each further one
/// begins with a blank and ends with another character.
#[derive(Debug, Drop)]
pub struct Field {
    pub name: Text,
    pub value: Text,
}

impl Field {
    /// The same field once more. Fails only for want of memory.
    pub fn copy(&self, alloc: Global) -> Result<Field, AllocError>
        ensures { IfOk result (λ field. field ≡ self.now) }
    {
        Ok(Field {
            name: self.name.copy(alloc)?,
            value: self.value.copy(alloc)?,
        })
    }
}

/// The fields of a stanza in order, no name twice without ASCII case (Debian Policy 5.1). Contracts see the list.
#[derive(Debug, Drop)]
pub struct Stanza {
    fields: Vec<Field>,
}

impl Model for Stanza {
    ghost use Rattle.std.specs.Prelude.{◌≡◌, List, true};
    ghost use Rattle.control_stanza.specs.declared.stanza.Field.{Field};
    ghost use Rattle.control_stanza.specs.Fields.{is_stanza};

    ghost Value = { List Field };

    ghost view = { λ s. s.fields.items };

    ghost invariant = { λ s. is_stanza s.fields.items ≡ true };
}

#[tactic(auto, unfolding(crate::specs::Fields::same_name))]
fn is_same_name(a: &str, b: &str) -> bool
    ensures { result ≡ same_name a.now b.now }
{
    a.eq_ignore_ascii_case(b)
}

pub(crate) fn has_field(fields: &[Field], name: &str) -> bool
    ensures { result ≡ name_is_there fields.now name.now }
{
    for field in fields {
        if is_same_name(field.name.as_str(), name) {
            return true;
        }
    }
    false
}

#[tactic(auto, using(crate::proofs::LineLemmas::go_on_at))]
fn go_on_last(fields: &mut Vec<Field>, more: &str) -> Result<(), AllocError>
    ensures { OnOk result (fields.new.items ≡ gone_on fields.old.items more.now) }
{
    let n = fields.len();
    if n == 0 {
        return Ok(());
    }
    let last = &mut fields[n - 1];
    last.value.push_line(more)
}

fn drop_field(fields: &mut Vec<Field>, name: &str)
    ensures { fields.new.items ≡ without_name fields.old.items name.now }
{
    fields.retain(|field| !is_same_name(field.name.as_str(), name));
}

impl Stanza {
    /// A stanza of one field.
    pub(crate) fn begin(alloc: Global, field: Field) -> Result<Stanza, AllocError>
        requires { is_field field ≡ true }
        ensures { IfOk result (λ s. s ≡ field ∷ []) }
    {
        let mut fields = Vec::new(alloc);
        fields.push(field)?;
        Ok(Stanza { fields })
    }

    /// The stanza with one field more.
    pub(crate) fn with_field(self, field: Field) -> Result<Stanza, AllocError>
        requires field { is_field field ≡ true }
        requires fresh { name_is_there self field.name ≡ false }
        ensures { IfOk result (λ s. s ≡ self ++ field ∷ []) }
    {
        let Stanza { mut fields } = self;
        fields.push(field)?;
        Ok(Stanza { fields })
    }

    /// The last field's value goes on with one more line.
    pub(crate) fn with_line(self, more: &str) -> Result<Stanza, AllocError>
        requires further { is_further_line more.now ≡ true }
        requires no_return { has_return more.now ≡ false }
        requires one_line { has_line_end more.now ≡ false }
        ensures { IfOk result (λ s. s ≡ gone_on self more.now) }
    {
        let Stanza { mut fields } = self;
        go_on_last(&mut fields, more)?;
        Ok(Stanza { fields })
    }

    /// The fields in order.
    pub fn fields(&self) -> &[Field]
        ensures fields { result.now ≡ self.now }
        ensures stanza { is_stanza result.now ≡ true }
    {
        &self.fields
    }

    /// The value of the field of that name, without ASCII case.
    pub fn get(&self, name: &str) -> Option<&str>
        ensures { option_copied result ≡ value_of self.now name.now }
    {
        value_of_field(&self.fields, name)
    }

    /// Drops the field of that name, without ASCII case, if there is one. The others stay in order.
    pub fn remove(&mut self, name: &str)
        ensures { self.new ≡ without_name self.old name.now }
    {
        drop_field(&mut self.fields, name);
    }

    /// The same stanza once more. Fails only for want of memory.
    pub fn copy(&self, alloc: Global) -> Result<Stanza, AllocError>
        ensures { IfOk result (λ made. made ≡ self.now) }
    {
        Ok(Stanza {
            fields: copy_fields(alloc, &self.fields)?,
        })
    }
}

#[tactic(auto, unfolding(crate::specs::Fields::value_of))]
fn value_of_field<'a>(fields: &'a [Field], name: &str) -> Option<&'a str>
    ensures { option_copied result ≡ value_of fields.now name.now }
{
    for field in fields {
        if is_same_name(field.name.as_str(), name) {
            return Some(field.value.as_str());
        }
    }
    None
}

fn copy_fields(alloc: Global, fields: &[Field]) -> Result<Vec<Field>, AllocError>
    ensures { IfOk result (λ v. v.items ≡ fields.now) }
{
    let mut copies = Vec::new(alloc);
    for field in fields {
        copies.push(field.copy(alloc)?)?;
    }
    Ok(copies)
}
