//! Writing trees of queries.

ghost use Rattle.std.specs.Prelude.{◌≡◌, ◌++◌, ◌||◌, ◌∷◌, [], OnOk, OnErr, if◌then◌else◌};
ghost use Rattle.query_tree.specs.Tree.{Tree, plain, plains, listed};
ghost use Rattle.query_tree.specs.Written.{is_any as any_tree, is_all as all_tree, written, alternatives, members};

use crate::query::Query;
use crate::write;
use std::alloc::AllocError;

fn is_any(query: &Query) -> bool
    ensures { result ≡ any_tree (plain query.now) }
{
    match query {
        Query::Any(_) => true,
        _ => false,
    }
}

fn is_any_or_all(query: &Query) -> bool
    ensures { result ≡ (any_tree (plain query.now) || all_tree (plain query.now)) }
{
    match query {
        Query::Any(_) | Query::All(_) => true,
        _ => false,
    }
}

fn put_if(out: &mut Vec<u8>, wanted: bool, bytes: &[u8]) -> Result<(), AllocError>
    ensures { OnOk result (out.new.items ≡ out.old.items ++ (if wanted then bytes.now else [])) }
{
    if wanted {
        return write::put(out, bytes);
    }
    Ok(())
}

/// The text of a query.
#[cycle(write)]
fn put_query(out: &mut Vec<u8>, query: &Query) -> Result<(), AllocError>
    ensures { OnOk result (out.new.items ≡ out.old.items ++ written (plain query.now)) }
{
    match query {
        Query::Any(queries) => put_alternatives(out, queries),
        Query::All(queries) => put_members(out, queries),
        Query::Not(inner) => {
            let enclosed = is_any_or_all(inner);
            write::put(out, b"!")?;
            put_if(out, enclosed, b"(")?;
            put_query(out, inner)?;
            put_if(out, enclosed, b")")
        }
        Query::Reference {
            name,
            version,
            arch,
        } => write::put_reference(out, name, version, arch),
        Query::Wanted {
            name,
            relation,
            arch,
        } => write::put_wanted(out, name, relation, arch),
        Query::Field { field, test } => write::put_field(out, field, test),
    }
}

/// Members of an `any`, with ` | ` between them.
#[cycle(write)]
fn put_alternatives(out: &mut Vec<u8>, queries: &[Query]) -> Result<(), AllocError>
    ensures { OnOk result (out.new.items ≡ out.old.items ++ alternatives (listed (plains queries.now))) }
{
    for i in 0..queries.len() {
        let enclosed = is_any(&queries[i]);
        put_if(out, i != 0, b" | ")?;
        put_if(out, enclosed, b"(")?;
        put_query(out, &queries[i])?;
        put_if(out, enclosed, b")")?;
    }
    Ok(())
}

/// Members of an `all`, with `, ` between them.
#[cycle(write)]
fn put_members(out: &mut Vec<u8>, queries: &[Query]) -> Result<(), AllocError>
    ensures { OnOk result (out.new.items ≡ out.old.items ++ members (listed (plains queries.now))) }
{
    for i in 0..queries.len() {
        let enclosed = is_any_or_all(&queries[i]);
        put_if(out, i != 0, b", ")?;
        put_if(out, enclosed, b"(")?;
        put_query(out, &queries[i])?;
        put_if(out, enclosed, b")")?;
    }
    Ok(())
}

/// Appends the text of a query. It is read back as the same tree, where the tree is that of some query.
///
/// Fails only for want of memory; the bytes are then as they were.
pub fn write_query(out: &mut Vec<u8>, query: &Query) -> Result<(), AllocError>
    ensures written { OnOk result (out.new.items ≡ out.old.items ++ written (plain query.now)) }
    ensures unchanged { OnErr result (out.new.items ≡ out.old.items) }
{
    let mut text = Vec::new(*out.allocator());
    put_query(&mut text, query)?;
    out.extend_from_slice(&text)
}
