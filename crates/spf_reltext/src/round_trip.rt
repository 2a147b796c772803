//! What is printed is read with the same meaning.

ghost use Rattle.std.specs.Prelude.{ℕ, ◌≡◌, ◌+◌, Result};
ghost use Rattle.spf_lex.specs.Tokens.{Tokenized};
ghost use Rattle.spf_rel.specs.declared.relation.Rel.{Rel};
ghost use Rattle.spf_rel.specs.declared.relation.Set.{Set};
ghost use Rattle.spf_reltext.specs.Parsed.{IsRelAnswer, IsSetAnswer};
ghost use Rattle.spf_reltext.specs.Printed.{rel_text, set_text};
ghost use Rattle.spf_reltext.specs.RoundTrip.{IsPrintable, IsSameRelAnswer, IsSameSetAnswer, IsWithinLimits};
ghost use Rattle.spf_reltext.specs.declared.names.RelNames.{RelNames};
ghost use Rattle.spf_reltext.specs.declared.parse.RelTextFault.{RelTextFault as Fault};

/// Law: the text of a relation or set with a conjunction, where it is in the grammar and within rule 24, is read up to its
/// end by the names that it was printed with, which stay as they are, and what is read has the same meaning.
pub fn printed_is_read()
    ensures relation { (names new : RelNames) (rel : Rel) (tokens : Tokenized) (answer : Result (Rel × ℕ) Fault) →
        IsPrintable names (rel.ins + rel.outs) rel.conjs → tokens.text ≡ rel_text names rel → IsWithinLimits tokens →
        IsRelAnswer tokens 0 names new answer → IsSameRelAnswer tokens names new rel answer }
    ensures set { (names new : RelNames) (set : Set) (tokens : Tokenized) (answer : Result (Set × ℕ) Fault) →
        IsPrintable names set.arity set.conjs → tokens.text ≡ set_text names set → IsWithinLimits tokens →
        IsSetAnswer tokens 0 names new answer → IsSameSetAnswer tokens names new set answer }
{}
