//! What plans are made of. The calls do nothing: their contracts are the laws.

ghost use Rattle.mv_patch.specs.Laws.{PairsAreDifferences, PairsAreTheOnly, PairsAtPlaces, PlacesOfTables, TablesTellPairs, OrdersKeepCount};

/// The pairs between two texts are their differences in ascending order and the only such list, and they are found at any
/// ascending addresses that hold each address at which the texts differ.
pub fn pairs_law()
    ensures differences { PairsAreDifferences }
    ensures only { PairsAreTheOnly }
    ensures places { PairsAtPlaces }
{}

/// The entries, the words of the sites and those of the pointer sites of an image, in order, are such addresses for the texts of any two bindings.
pub fn tables_law()
    ensures places { PlacesOfTables }
    ensures pairs { TablesTellPairs }
{}

/// An order leaves one binding for each function and each pointer switch.
pub fn bindings_law()
    ensures { OrdersKeepCount }
{}
