//! What the operators of plans make of columns that have one cell for each pick.
//!
//! After the candidates of a query each column of a plan is such a column: a list of picks, each
//! with its place, and a cell for each. Joins and cross products spread picks to more picks,
//! conditions keep some of them, functions of cells are computed pick by pick, and groups leave the
//! first pick of each. Neither plans nor SQL occur here: both translators use these laws. The
//! public calls state them and run nothing.
#![tactic(auto)]

ghost use Rattle.pick_laws.specs.Laws.{GroupsAreNumbered, PicksSpread, PlacesAreGathered, RowsAreKept, ShapesStay};

/// Heads are counted from 0, and a join with the oids of places takes the cells at these places.
pub fn places_are_gathered<P, Y>()
    ensures { PlacesAreGathered P Y }
{}

/// A join or a cross product with one more table spreads each pick to rows of that table, by picks,
/// then rows.
pub fn picks_spread<P>()
    ensures { PicksSpread P }
{}

/// Selections, unions and differences have the oid of a row just where the row's cells pass.
pub fn rows_are_kept()
    ensures { RowsAreKept }
{}

/// Keeping, computing, spreading a scalar and showing rows: each yields a cell for each pick again.
pub fn shapes_stay<P>()
    ensures { ShapesStay P }
{}

/// Groups have numbers, first picks and members as the cells of their columns say.
pub fn groups_are_numbered<P>()
    ensures { GroupsAreNumbered P }
{}
