//! What holds of the programs that are generated.

ghost use Rattle.std.specs.Prelude.{ℕ, ◌≡◌};
ghost use Rattle.spf_kernel.specs.declared.tree.Tree.{Tree};
ghost use Rattle.spf_exec.specs.Generated.{program_of};
ghost use Rattle.spf_exec.specs.declared.program.Moved.{Moved};
ghost use Rattle.spf_emit.specs.ComposedText.{composed_text};
ghost use Rattle.spf_emit.specs.Places.{HasTermForEachPlace};
ghost use Rattle.spf_emit.specs.Text.{emit_text};

/// Law: the program of a kernel has a term for each of its places, whatever is moved.
#[tactic(auto, using(crate::proofs::Counted::program_counted))]
pub fn generated_programs_have_all_terms()
    ensures { (tree : Tree) (moved : Moved) → HasTermForEachPlace (program_of tree moved) tree }
{}

/// Law: in the text of the program of a kernel what the source has at each place stands composed, and packed in subscripts.
pub fn generated_programs_are_written_composed()
    ensures { (tree : Tree) (moved : Moved) (tiles steps : ℕ) → emit_text (program_of tree moved) tree tiles steps ≡ composed_text tree moved tiles steps }
{}
