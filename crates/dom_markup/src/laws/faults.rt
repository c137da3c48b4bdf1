//! Laws about the errors of the parser.

ghost use Rattle.std.specs.Prelude.{[], List, ℕ};
ghost use Rattle.dom_nodes.specs.declared.fault.MarkupFaultKind.{MarkupFaultKind};
ghost use Rattle.dom_markup.specs.FaultKinds.{HoldsMark, IsLimitFault};
ghost use Rattle.dom_markup.specs.FaultKinds.{IsNestingFault, IsTokenFault};
ghost use Rattle.dom_markup.specs.Markup.{Item, Spells, SpellsItemsUpTo};
ghost use Rattle.dom_markup.specs.Names.{Mode, markup};
ghost use Rattle.dom_markup.specs.Refusals.{Cause, IsFaultAt, Refused};
ghost use Rattle.dom_markup.specs.ValueTrees.{ValueTrees};

/// Which kinds of faults can occur. Where no token starts, the kind is one of the six of
/// `IsTokenFault`. For a text of complete tokens, tags are badly nested, a doctype is misplaced, or
/// node ids or memory run out. For explicit markup, only node ids or memory can run out. A
/// `BadComment` needs `<!--` in the text, an `Instruction` `<?`, and a `StrayEnd` `</`.
pub fn kinds_of_faults()
    ensures tokens { (m : Mode) (t : List ℕ) (k : MarkupFaultKind) → Cause m t k → IsTokenFault k }
    ensures nesting { (text : List ℕ) (at : ℕ) (kind : MarkupFaultKind) (items : List Item)
        → SpellsItemsUpTo markup text items [] → IsFaultAt text at kind → IsNestingFault kind }
    ensures marks { (t : List ℕ) (n : ℕ) (k : MarkupFaultKind) → IsFaultAt t n k → HoldsMark t k }
    ensures limits { (text : List ℕ) (trees : ValueTrees) (kind : MarkupFaultKind)
        → Spells text trees → Refused text kind → IsLimitFault kind }
{}
