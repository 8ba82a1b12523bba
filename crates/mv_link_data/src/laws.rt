ghost use Rattle.mv_link_data.specs.Laws.{WordsAreFirst, CountIsSum, PlacesAreSums, SizesAreCounts, FunctionsAreThere};

/// The data of a program are the first words of its globals, once functions have numbers, and each global has its place in
/// them. The call does nothing: its contract is the law.
pub fn data_law()
    ensures words { WordsAreFirst }
    ensures count { CountIsSum }
    ensures places { PlacesAreSums }
    ensures sizes { SizesAreCounts }
    ensures functions { FunctionsAreThere }
{}
