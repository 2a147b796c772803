//! What is known of numbers that break no rule of the input.

ghost use Rattle.std.specs.Prelude.{◌≡◌, List, None, length};
ghost use Rattle.spf_space.specs.Layout.{cells_in};
ghost use Rattle.spf_kernel.specs.Parsed.{IsParsed};
ghost use Rattle.spf_kernel.specs.declared.tree.Tree.{Tree};
ghost use Rattle.spf_store.specs.Accepted.{IsAccepted};
ghost use Rattle.spf_store.specs.Shaped.{data_of};
ghost use Rattle.spf_input.specs.Given.{Given};
ghost use Rattle.spf_input.specs.Numbers.{cells_of, env_of};
ghost use Rattle.spf_input.specs.Rules.{first_fault_of};

/// Law: numbers that break no rule of the input are numbers that the kernel may be given, and they fill its data arrays.
pub fn kept_input_is_accepted()
    ensures accepted { (tree : Tree) (given : List Given) → IsParsed tree → first_fault_of tree given ≡ None → IsAccepted (env_of tree given) tree }
    ensures filled { (tree : Tree) (given : List Given) → IsParsed tree → first_fault_of tree given ≡ None →
        length (cells_of tree given) ≡ cells_in (data_of (env_of tree given) tree) }
{}
