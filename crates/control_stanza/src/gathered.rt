//! The fields of a stanza that is being read.
ghost use Rattle.std.specs.Prelude.{◌≡◌, ◌++◌, ◌∷◌, [], List, IfOk, OnOk, map, string_bytes, true, false};
ghost use Rattle.std.specs.BTreeSet.{contains_text};
ghost use Rattle.std.specs.Char.{to_ascii_lowercase};
ghost use Rattle.control_stanza.specs.declared.stanza.Field.{Field};
ghost use Rattle.control_stanza.specs.Lines.{has_return, has_line_end};
ghost use Rattle.control_stanza.specs.Fields.{has_name as name_is_there, is_field, is_further_line};
ghost use Rattle.control_stanza.specs.Reading.{go_on as gone_on};
ghost use Rattle.control_stanza.specs.Names.{Lists};

use crate::stanza::{Field, Stanza, has_field};
use std::alloc::{AllocError, Global};
use std::collections::BTreeSet;
use std::marker::Model;

/// Fewer fields than these are compared one by one. Most stanzas have no more, and need no set of names.
const FEW: usize = 32;

/// A stanza that grows. Contracts see its fields.
///
/// The names of its first fields stand in lower case in an ordered set, so that a name is found among many fields in
/// little time. Of the fields behind them, fewer than `FEW`, each is compared.
#[derive(Debug, Drop)]
pub(crate) struct Gathered {
    stanza: Stanza,
    names: BTreeSet<String>,
    listed: usize,
}

impl Model for Gathered {
    ghost use Rattle.std.specs.Prelude.{List, ◌≤◌, length, take};
    ghost use Rattle.control_stanza.specs.declared.stanza.Field.{Field};
    ghost use Rattle.control_stanza.specs.Names.{Lists};

    ghost Value = { List Field };

    ghost view = { λ g. g.stanza };

    ghost invariant = { λ g. (g.listed ≤ length g.stanza) × Lists g.names (take g.listed g.stanza) };
}

fn in_lower_case(alloc: Global, name: &str) -> Result<String, AllocError>
    ensures { IfOk result (λ made. string_bytes made ≡ map to_ascii_lowercase name.now) }
{
    let mut made = String::from_str(alloc, name)?;
    made.make_ascii_lowercase();
    Ok(made)
}

fn list_name(alloc: Global, names: &mut BTreeSet<String>, field: &Field) -> Result<(), AllocError>
    ensures { OnOk result ((above : List Field) → Lists names.old above → Lists names.new (above ++ field.now ∷ [])) }
{
    names.insert(in_lower_case(alloc, field.name.as_str())?)?;
    Ok(())
}

fn list_names(
    alloc: Global,
    names: &mut BTreeSet<String>,
    fields: &[Field],
) -> Result<(), AllocError>
    ensures { OnOk result ((above : List Field) → Lists names.old above → Lists names.new (above ++ fields.now)) }
{
    for field in fields {
        list_name(alloc, names, field)?;
    }
    Ok(())
}

fn is_listed(alloc: Global, names: &BTreeSet<String>, name: &str) -> Result<bool, AllocError>
    ensures { IfOk result (λ there. there ≡ contains_text names.now (map to_ascii_lowercase name.now)) }
{
    if names.is_empty() {
        return Ok(false);
    }
    Ok(names.contains(in_lower_case(alloc, name)?.as_str()))
}

impl Gathered {
    /// A stanza of one field.
    pub(crate) fn begin(alloc: Global, field: Field) -> Result<Gathered, AllocError>
        requires { is_field field ≡ true }
        ensures { IfOk result (λ g. g ≡ field ∷ []) }
    {
        Ok(Gathered {
            stanza: Stanza::begin(alloc, field)?,
            names: BTreeSet::new(alloc),
            listed: 0,
        })
    }

    /// The stanza with one field more.
    pub(crate) fn with_field(self, alloc: Global, field: Field) -> Result<Gathered, AllocError>
        requires field { is_field field ≡ true }
        requires fresh { name_is_there self field.name ≡ false }
        ensures { IfOk result (λ g. g ≡ self ++ field ∷ []) }
    {
        let Gathered {
            stanza,
            mut names,
            listed,
        } = self;
        let stanza = stanza.with_field(field)?;
        let (_, unlisted) = stanza.fields().split_at(listed);
        if unlisted.len() < FEW {
            return Ok(Gathered {
                stanza,
                names,
                listed,
            });
        }
        list_names(alloc, &mut names, unlisted)?;
        let listed = stanza.fields().len();
        Ok(Gathered {
            stanza,
            names,
            listed,
        })
    }

    /// The last field's value goes on with one more line.
    pub(crate) fn with_line(self, more: &str) -> Result<Gathered, AllocError>
        requires further { is_further_line more.now ≡ true }
        requires no_return { has_return more.now ≡ false }
        requires one_line { has_line_end more.now ≡ false }
        ensures { IfOk result (λ g. g ≡ gone_on self more.now) }
    {
        let Gathered {
            stanza,
            names,
            listed,
        } = self;
        let stanza = stanza.with_line(more)?;
        Ok(Gathered {
            stanza,
            names,
            listed,
        })
    }

    /// Whether a field has that name, without ASCII case.
    pub(crate) fn has_name(&self, alloc: Global, name: &str) -> Result<bool, AllocError>
        ensures { IfOk result (λ there. there ≡ name_is_there self.now name.now) }
    {
        if is_listed(alloc, &self.names, name)? {
            return Ok(true);
        }
        let (_, unlisted) = self.stanza.fields().split_at(self.listed);
        Ok(has_field(unlisted, name))
    }

    /// The stanza, whole.
    pub(crate) fn into_stanza(self) -> Stanza
        ensures { result ≡ self }
    {
        self.stanza
    }
}
