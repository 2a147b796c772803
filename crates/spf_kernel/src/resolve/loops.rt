//! Loops.

ghost use Rattle.std.specs.Prelude.{◌≡◌, IfOk, map, flat_map};
ghost use Rattle.spf_lex.specs.Tokens.{texts};
ghost use Rattle.spf_kernel.specs.Notes.{item_notes, loop_notes};
ghost use Rattle.spf_kernel.specs.Resolved.{AreNames, item_of, loop_of};

use crate::check::names::Source;
use crate::note::Scope;
use crate::raw::{RawItem, RawLoop, RawPart};
use crate::resolve::declarations::resolve_name;
use crate::resolve::statements::resolve_guard;
use crate::resolve::terms::resolve_ix;
use crate::resolve::{Means, resolve_all};
use crate::tree::{Item, Loop};
use spf_base::NoMemory;
use spf_lex::Token;
use sqlite_items::Items;

fn resolve_item(source: &Source, outer: Token, item: &RawItem) -> Result<Item, NoMemory>
    requires { AreNames (texts source.now.tokens.now) (item_notes outer item.now) }
    ensures { IfOk result (λ found. found ≡ item_of (texts source.now.tokens.now) source.now.names.now outer item.now) }
{
    let within = Scope::Within(outer);
    match item {
        RawItem::Part(RawPart::Assign(assign)) => Ok(Item::Assign(assign.resolve(source, within)?)),
        RawItem::Part(RawPart::Guard(guard)) => {
            let guard = resolve_guard(source, within, guard)?;
            Ok(Item::Branch(guard))
        }
        RawItem::Inner(range, parts) => {
            let inside = Scope::Inside(outer, range.var);
            Ok(Item::Inner {
                var: resolve_name(source, range.var)?,
                low: resolve_ix(source, within, &range.low)?,
                high: resolve_ix(source, within, &range.high)?,
                parts: resolve_all(source, inside, parts.as_slice())?,
            })
        }
    }
}

fn resolve_items(source: &Source, outer: Token, items: &[RawItem]) -> Result<Items<Item>, NoMemory>
    requires { AreNames (texts source.now.tokens.now) (flat_map (item_notes outer) items.now) }
    ensures { IfOk result (λ all. all ≡ map (item_of (texts source.now.tokens.now) source.now.names.now outer) items.now) }
{
    let mut all = Items::new(source.alloc);
    for item in items {
        all.push(resolve_item(source, outer, item)?)?;
    }
    Ok(all)
}

impl Means for RawLoop {
    type Tree = Loop;

    ghost are_names = { λ texts scope raw. AreNames texts (loop_notes raw) };

    ghost meaning = { λ texts names scope. loop_of texts names };

    fn resolve(&self, source: &Source, _scope: Scope) -> Result<Loop, NoMemory> {
        let nothing = Scope::Nothing;
        let range = &self.range;
        Ok(Loop {
            name: resolve_name(source, self.name)?,
            var: resolve_name(source, range.var)?,
            low: resolve_ix(source, nothing, &range.low)?,
            high: resolve_ix(source, nothing, &range.high)?,
            items: resolve_items(source, range.var, self.items.as_slice())?,
        })
    }
}
