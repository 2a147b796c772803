//! Laws on the raw trees of kernels, and on where kernels stand.

ghost use Rattle.std.specs.Prelude.{◌≡◌, ◌++◌, ℕ, List, All, drop};
ghost use Rattle.spf_base.specs.Word.{IsName};
ghost use Rattle.spf_lex.specs.BundleWords.{bundle_words};
ghost use Rattle.spf_lex.specs.Language.{Lexed, tokens_of};
ghost use Rattle.spf_lex.specs.Tokens.{IsTokenText, Tokenized};
ghost use Rattle.spf_kernel.specs.Notes.{kernel_notes};
ghost use Rattle.spf_kernel.specs.Facts.{text_of};
ghost use Rattle.spf_kernel.specs.Rules.{is_naming, tokens_that};
ghost use Rattle.spf_kernel.specs.Types.{Kind, Place, RawKernel, TextKind};
ghost use Rattle.spf_kernel.specs.read.Stands.{IsKernel, IsSyntaxFault, StandsAt};

/// Law: tokens are a kernel with one tree.
pub fn one_raw_tree()
    ensures { (tokens : List (Lexed Kind)) (a b : RawKernel) → IsKernel tokens a → IsKernel tokens b → a ≡ b }
{}

/// Law: the names that a kernel declares are words.
#[tactic(auto, using(crate::proofs::NamesAreWords::names_are_words))]
pub fn names_are_words()
    ensures { (texts : List (List ℕ)) (n m : ℕ) (front : List (Lexed Kind)) (raw : RawKernel) → All IsTokenText texts →
        drop n (tokens_of bundle_words texts) ≡ front ++ drop m (tokens_of bundle_words texts) → IsKernel front raw →
        All (λ t. IsName (text_of texts t)) (tokens_that is_naming (kernel_notes raw)) }
{}

/// Law: from a token on at most one kernel stands, with one raw tree, and where one stands there is no fault of syntax.
pub fn one_kernel_stands()
    ensures one { (tokens : Tokenized) (from n m : ℕ) (a b : RawKernel) → StandsAt tokens from n a → StandsAt tokens from m b →
        (n ≡ m) × (a ≡ b) }
    ensures no_fault { (tokens : Tokenized) (from n : ℕ) (raw : RawKernel) (place : Place) (kind : TextKind) →
        StandsAt tokens from n raw → ¬ IsSyntaxFault tokens from place kind }
{}
