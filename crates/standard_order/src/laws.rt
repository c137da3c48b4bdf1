//! Laws about the state of tree construction where a turn begins, in a page or in a fragment of any
//! context, and about the trees of pages. The functions do nothing at run time; their contracts are
//! the theorems.

ghost use Rattle.standard_order.specs.Begun.{TurnsAreBegun};
ghost use Rattle.standard_order.specs.CurrentNodes.{CurrentNodesAreKnown};
ghost use Rattle.standard_order.specs.FormattingListed.{OnlyFormattingIsListed};
ghost use Rattle.standard_order.specs.ListedOnce.{ListingNeedsNoTest, TurnsListOnce};
ghost use Rattle.standard_order.specs.Order.{OrderNeedsNoTest, TurnsBeginInOrder};
ghost use Rattle.standard_order.specs.PageTops.{PagesHaveOneRoot, PagesHaveTheirShape};
ghost use Rattle.standard_order.specs.Pending.{NoNullIsPending};

/// Whatever tokens come, wherever a turn of tree construction begins, the outermost open element is
/// `html` in every mode after "before html", and the head element isn't open in "after head".
#[tactic(auto, using(crate::proofs::TurnsRun::turns_begin_in_order))]
pub fn turns_begin_in_order()
    ensures { TurnsBeginInOrder }
{}

/// Where turns that pass some test lead, all of this is so at each of them, too: the test needs not
/// ask for it.
#[tactic(auto, using(crate::proofs::TurnsRun::order_needs_no_test))]
pub fn order_needs_no_test()
    ensures { OrderNeedsNoTest }
{}

/// Whatever tokens come, no pending table character token is a null: where turns that pass some
/// test lead, that is so at each of them, too.
#[tactic(auto, using(crate::proofs::PendingNulls::no_null_is_pending))]
pub fn no_null_is_pending()
    ensures { NoNullIsPending }
{}

/// The Document of each page has at most one doctype, then one element `html`, and comments.
#[tactic(auto, using(crate::proofs::TopPages::pages_have_one_root))]
pub fn pages_have_one_root()
    ensures { PagesHaveOneRoot }
{}

/// Each page has the shape of one: in `html` there are a head and a body, or a head, a frameset and
/// any other elements, whatever tokens come.
#[tactic(auto, using(crate::proofs::PartPages::pages_have_their_shape))]
pub fn pages_have_their_shape()
    ensures { PagesHaveTheirShape }
{}

/// Whatever tokens come, wherever a turn of tree construction begins, no element is in the list of
/// active formatting elements twice, and each that is in it is a node of the tree.
#[tactic(auto, using(crate::proofs::ListedTurns::turns_list_once))]
pub fn turns_list_once()
    ensures { TurnsListOnce }
{}

/// Where turns that pass some test lead, that is so at each of them, too: the test needs not ask
/// for it.
#[tactic(auto, using(crate::proofs::ListedTurns::listing_needs_no_test))]
pub fn listing_needs_no_test()
    ensures { ListingNeedsNoTest }
{}

/// Whatever tokens come, wherever a turn of tree construction begins, no line feed is to be skipped,
/// and the tokenizer isn't switched: a test of turns needs not ask for it.
#[tactic(auto, using(crate::proofs::BegunTurns::turns_are_begun))]
pub fn turns_are_begun()
    ensures { TurnsAreBegun }
{}

/// Whatever tokens come, wherever a turn of tree construction begins, an element is open in every
/// mode after "before html", and in "text" and "in table text" the adjusted current node is an HTML
/// element: a test of turns needs not ask for it.
#[tactic(auto, using(crate::proofs::CurrentNodes::current_nodes_are_known))]
pub fn current_nodes_are_known()
    ensures { CurrentNodesAreKnown }
{}

/// Whatever tokens come, wherever a turn of tree construction begins, each element of the list of
/// active formatting elements is one of those that the rules add to it: a test of turns needs not
/// ask for it.
#[tactic(auto, using(crate::proofs::FormattingTurns::only_formatting_is_listed))]
pub fn only_formatting_is_listed()
    ensures { OnlyFormattingIsListed }
{}
