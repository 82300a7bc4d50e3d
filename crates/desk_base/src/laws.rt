//! Laws of the definitions: each is the contract of a function that does nothing.
ghost use Rattle.std.specs.Prelude.{◌≡◌, ◌+◌, ◌++◌, ◌∷◌, ◌≤◌, ◌<◌, ℕ, List, Option, Some, None, false, length, map, sum_by, Contains};
ghost use Rattle.desk_base.specs.asked.Histories.{IsLegal, IsNumbered};
ghost use Rattle.desk_base.specs.meaning.Trees.{tree_by, children, trees_of, leaf_count, is_leaf};
ghost use Rattle.desk_base.specs.rules.TreeRules.{tree_fault};
ghost use Rattle.desk_base.specs.meaning.Picks.{leaves_under};
ghost use Rattle.desk_base.specs.declared.asked.acts.Entry.{Entry};
ghost use Rattle.desk_base.specs.rows.Types.{Tables, GroupRow, Node, BookingRow, Found, Position, Options, Ask, Page};
ghost use Rattle.desk_base.specs.meaning.Load.{weight, own_load, members, sort_of, pool, Fits, ask_of, IsClash};
ghost use Rattle.desk_base.specs.search.Listing.{IsLive, IsRow, AreRows, IsListing, IsLiveList};
ghost use Rattle.desk_base.specs.search.Page.{ResumePoint, beginning, passed_of, IsPage, AreResumed, Joins, PassesOne, IsShortest};
ghost use Rattle.desk_base.specs.search.Positions.{position_at, found_of, rows_among};
ghost use Rattle.desk_base.specs.rules.Sound.{IsSound, AreWellFormed};
ghost use Rattle.desk_base.specs.rows.Trial.{trial};
ghost use Rattle.desk_base.specs.search.Verdicts.{IsVerdict};
ghost use Rattle.desk_base.specs.declared.asked.rules.Verdict.{Verdict};

/// There are sound tables with a group: the trial tables.
pub fn trial_is_sound()
    ensures { IsSound trial }
{}

/// Sound tables are what calls ask for.
pub fn sound_tables_are_well_formed()
    ensures { (t : Tables) → IsSound t → AreWellFormed t }
{}

/// In sound tables the standing bookings fit.
pub fn standing_bookings_fit()
    ensures { (t : Tables) → IsSound t → Fits t (map ask_of t.bookings) }
{}

/// The weights of two lists of bookings add up.
pub fn weights_add()
    ensures { (t : Tables) (standing asked : List Ask) (r m : ℕ) → weight t (standing ++ asked) r m ≡ weight t standing r m + weight t asked r m }
{}

/// In well-formed tables a pool weighs what stands on it and what its members weigh.
pub fn pool_weights()
    ensures { (t : Tables) (asks : List Ask) (r m : ℕ) → AreWellFormed t → sort_of t r ≡ pool → weight t asks r m ≡ sum_by (own_load r m) asks + sum_by (λ x. weight t asks x m) (members t r m) }
{}

/// Bookings clash at one minute, and there at one resource.
pub fn clashes_agree()
    ensures { (t : Tables) (standing : List BookingRow) (asked : List Ask) (r m n r' m' n' : ℕ) → IsClash t standing asked r m n → IsClash t standing asked r' m' n' → (m ≡ m') × (r ≡ r') }
{}

/// What begins a live position is live.
pub fn prefixes_live()
    ensures { (t : Tables) (g : GroupRow) (o : Options) (s : ℕ) (first more : List (Option ℕ)) → 1 ≤ length first → IsLive t g o (position_at s (first ++ more)) → IsLive t g o (position_at s first) }
{}

/// The rows of a search are its live positions that have a pick for each leaf.
pub fn full_positions_are_rows()
    ensures { (t : Tables) (g : GroupRow) (o : Options) (ps : List Position) → AreWellFormed t → Contains t.groups g → IsLiveList t g o ps → AreRows t g o (rows_among (length g.leaves) ps) }
{}

/// A live position with a pick for each leaf is a row of the search.
pub fn full_position_is_row()
    ensures { (t : Tables) (g : GroupRow) (o : Options) (p : Position) → AreWellFormed t → Contains t.groups g → IsLive t g o p → length p.picks ≡ length g.leaves → IsRow t g o (found_of p) }
{}

/// A page that is not at its end has passed a live position that was due, and goes on after it.
pub fn page_passes()
    ensures { (t : Tables) (g : GroupRow) (o : Options) (point : ResumePoint) (limit : ℕ) (page : Page) → 1 ≤ limit → IsPage t g o point limit page → page.end ≡ false → PassesOne t g o point page }
{}

/// What a page passes holds as many rows as it may have, or as many positions as it may pass, or all of them, and no shorter
/// prefix does.
pub fn passes_no_more()
    ensures { (leaves full many : ℕ) (ps : List Position) → IsShortest leaves full many ps (passed_of leaves full many ps) }
{}

/// A search has one listing.
pub fn listings_agree()
    ensures { (t : Tables) (g : GroupRow) (o : Options) (xs ys : List Found) → IsListing t g o xs → IsListing t g o ys → xs ≡ ys }
{}

/// A search has one list of live positions.
pub fn live_lists_agree()
    ensures { (t : Tables) (g : GroupRow) (o : Options) (xs ys : List Position) → IsLiveList t g o xs → IsLiveList t g o ys → xs ≡ ys }
{}

/// From one point on and with one limit a search has one page.
pub fn pages_agree()
    ensures { (t : Tables) (g : GroupRow) (o : Options) (point : ResumePoint) (limit : ℕ) (x y : Page) → IsPage t g o point limit x → IsPage t g o point limit y → x ≡ y }
{}

/// Pages of one search, each resumed from the one before, join to the first rows of the listing, and to all of them where the
/// last says that it ends.
pub fn pages_join()
    ensures { (t : Tables) (g : GroupRow) (o : Options) (pages : List Page) (listing : List Found) → AreWellFormed t → Contains t.groups g → IsListing t g o listing → AreResumed t g o beginning pages → Joins t g o pages listing }
{}

/// What stands under an inner node of a tree counts as many leaves as the node's tree.
pub fn leaves_under_are_counted()
    ensures { (front ns : List Node) (n : Node) (size : ℕ) → tree_fault (front ++ n ∷ ns) size ≡ None → is_leaf n.kind ≡ false
        → leaves_under n.depth ns ≡ leaf_count (tree_by n.kind (children n.depth (trees_of ns))) }
{}

/// A booking number is never given again: in a legal journal those of a later entry are above those of an earlier one, and all
/// of them above those that were given before the opening.
pub fn booking_numbers_rise()
    ensures { (opened : Tables) (before between after : List Entry) (e f : Entry) (m n : ℕ) → IsLegal opened (before ++ e ∷ (between ++ f ∷ after)) → IsNumbered e.receipt m → IsNumbered f.receipt n
        → (opened.last_booking < m) × (m < n) }
{}

/// Of a start and picks at most one verdict holds.
pub fn verdicts_agree()
    ensures { (t : Tables) (g : GroupRow) (s : ℕ) (picks : List (Option ℕ)) (v w : Verdict) → IsVerdict t g s picks v → IsVerdict t g s picks w → v ≡ w }
{}
