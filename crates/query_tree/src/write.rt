//! Writing queries.

ghost use Rattle.std.specs.Prelude.{◌≡◌, ◌∷◌, ◌++◌, ◌||◌, OnOk};
ghost use Rattle.std.specs.List.{list_all};
ghost use Rattle.query_tree.specs.Tree.{plain, plains, listed};
ghost use Rattle.query_tree.specs.Written.{test_text, tested_text, test_of as test_asking, is_plain_character as plain_character, is_plain as plain_value, escaped, value_text, relation_text, arch_text, field_text, is_any as any_tree, is_all as all_tree, in_parentheses, written, alternatives, members, more_alternatives, more_members};

use crate::piece;
use crate::query::{Query, Test};
use ap_text::Name;
use control_stanza::Text;
use deb_version::{Relation, Version};
use std::alloc::AllocError;

pub(crate) fn put(out: &mut Vec<u8>, bytes: &[u8]) -> Result<(), AllocError>
    ensures { OnOk result (out.new.items ≡ out.old.items ++ bytes.now) }
{
    out.extend_from_slice(bytes)
}

fn text_of(test: Test) -> &'static str
    ensures { result.now ≡ test_text test }
{
    match test {
        Test::Equal => Relation::Equal.operator(),
        Test::Less => Relation::Earlier.operator(),
        Test::LessEqual => Relation::EarlierEqual.operator(),
        Test::GreaterEqual => Relation::LaterEqual.operator(),
        Test::Greater => Relation::Later.operator(),
        Test::Glob => "%",
        Test::Pattern => "~",
    }
}

fn put_test(out: &mut Vec<u8>, test: Test) -> Result<(), AllocError>
    ensures { OnOk result (out.new.items ≡ out.old.items ++ test_text test) }
{
    put(out, text_of(test).as_bytes())
}

fn test_of(relation: Relation) -> Test
    ensures { result ≡ test_asking relation }
{
    match relation {
        Relation::Earlier => Test::Less,
        Relation::EarlierEqual => Test::LessEqual,
        Relation::Equal => Test::Equal,
        Relation::LaterEqual => Test::GreaterEqual,
        Relation::Later => Test::Greater,
    }
}

fn is_plain_character(c: u8) -> bool
    ensures { result ≡ plain_character c }
{
    piece::is_word(c) && c != b'\\'
}

fn has_plain_characters(value: &[u8]) -> bool
    ensures { result ≡ list_all plain_character value.now }
{
    value.iter().all(|c| is_plain_character(*c))
}

#[tactic(auto, unfolding(crate::specs::Written::is_plain))]
fn is_plain(value: &[u8]) -> bool
    ensures { result ≡ plain_value value.now }
{
    match value {
        [] => false,
        _ => has_plain_characters(value),
    }
}

fn put_escaped(out: &mut Vec<u8>, value: &[u8]) -> Result<(), AllocError>
    ensures { OnOk result (out.new.items ≡ out.old.items ++ escaped value.now) }
{
    for c in value {
        if *c == b'"' || *c == b'\\' {
            out.push(b'\\')?;
        }
        out.push(*c)?;
    }
    Ok(())
}

#[tactic(auto, unfolding(crate::specs::Written::value_text))]
fn put_value(out: &mut Vec<u8>, value: &[u8]) -> Result<(), AllocError>
    ensures { OnOk result (out.new.items ≡ out.old.items ++ value_text value.now) }
{
    if is_plain(value) {
        return put(out, value);
    }
    put(out, b"\"")?;
    put_escaped(out, value)?;
    put(out, b"\"")
}

/// ` (op value)`
fn put_tested(out: &mut Vec<u8>, test: Test, value: &[u8]) -> Result<(), AllocError>
    ensures { OnOk result (out.new.items ≡ out.old.items ++ tested_text test value.now) }
{
    put(out, b" (")?;
    put_test(out, test)?;
    put(out, b" ")?;
    put(out, value)?;
    put(out, b")")
}

fn put_relation(out: &mut Vec<u8>, relation: &Option<(Relation, Version)>) -> Result<(), AllocError>
    ensures { OnOk result (out.new.items ≡ out.old.items ++ relation_text relation.now) }
{
    match relation {
        None => Ok(()),
        Some((asked, version)) => put_tested(out, test_of(*asked), version.as_str().as_bytes()),
    }
}

/// ` {arch}`
fn put_arch(out: &mut Vec<u8>, arch: &Option<Name>) -> Result<(), AllocError>
    ensures { OnOk result (out.new.items ≡ out.old.items ++ arch_text arch.now) }
{
    match arch {
        None => Ok(()),
        Some(name) => {
            put(out, b" {")?;
            put(out, name.as_str().as_bytes())?;
            put(out, b"}")
        }
    }
}

/// ` (test value)`, its value quoted where it has to be.
fn put_field_test(out: &mut Vec<u8>, test: &Option<(Test, Text)>) -> Result<(), AllocError>
    ensures { OnOk result (out.new.items ≡ out.old.items ++ field_text test.now) }
{
    match test {
        None => Ok(()),
        Some((how, value)) => {
            put(out, b" (")?;
            put_test(out, *how)?;
            put(out, b" ")?;
            put_value(out, value.as_str().as_bytes())?;
            put(out, b")")
        }
    }
}

pub(crate) fn put_reference(
    out: &mut Vec<u8>,
    name: &Name,
    version: &Version,
    arch: &Name,
) -> Result<(), AllocError>
    ensures { OnOk result (out.new.items ≡ out.old.items ++ (name.now ++ 95 ∷ (version.now ++ 95 ∷ arch.now))) }
{
    put(out, name.as_str().as_bytes())?;
    put(out, b"_")?;
    put(out, version.as_str().as_bytes())?;
    put(out, b"_")?;
    put(out, arch.as_str().as_bytes())
}

pub(crate) fn put_wanted(
    out: &mut Vec<u8>,
    name: &Name,
    relation: &Option<(Relation, Version)>,
    arch: &Option<Name>,
) -> Result<(), AllocError>
    ensures { OnOk result (out.new.items ≡ out.old.items ++ (name.now ++ (relation_text relation.now ++ arch_text arch.now))) }
{
    put(out, name.as_str().as_bytes())?;
    put_relation(out, relation)?;
    put_arch(out, arch)
}

pub(crate) fn put_field(
    out: &mut Vec<u8>,
    field: &Text,
    test: &Option<(Test, Text)>,
) -> Result<(), AllocError>
    ensures { OnOk result (out.new.items ≡ out.old.items ++ (field.now ++ field_text test.now)) }
{
    put(out, field.as_str().as_bytes())?;
    put_field_test(out, test)
}
