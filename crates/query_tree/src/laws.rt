//! Laws of the text of a query.

ghost use Rattle.std.specs.Prelude.{ℕ, List, IsTrue};
ghost use Rattle.std.specs.Str.{IsUtf8};
ghost use Rattle.query_tree.specs.Tree.{Tree};
ghost use Rattle.query_tree.specs.Grammar.{QueryText};
ghost use Rattle.query_tree.specs.Written.{written, is_one_line};

/// What is written of a tree is read back as the same tree: for every tree that some text spells, the text that
/// `write_query` appends spells it too, in no more levels.
pub fn written_query_is_read_back()
    ensures { (levels : ℕ) (text : List ℕ) (t : Tree) → QueryText levels text t → QueryText levels (written t) t }
{}

/// What is written of a tree that some text spells is one line: it has no byte below 32 and none that is 127. It is UTF-8
/// where that text is.
pub fn written_query_is_one_line()
    ensures line { (levels : ℕ) (text : List ℕ) (t : Tree) → QueryText levels text t → IsTrue (is_one_line (written t)) }
    ensures utf8 { (levels : ℕ) (text : List ℕ) (t : Tree) → IsUtf8 text → QueryText levels text t → IsUtf8 (written t) }
{}
