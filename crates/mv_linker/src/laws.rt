ghost use Rattle.mv_linker.specs.Laws.{LinesFit, StubsStand, FunctionsStand, RenamedLinesStand, UnattributedPartsArePlain, SitesAreCounted};

/// The lines of parts may be assembled, and the stubs and the part of each function and variant stand in them, where its lines
/// stand with their own labels; without attributed functions nothing is patched; and there is a site for each slot. The call does
/// nothing: its contract is the law.
pub fn linking_law()
    ensures fits { LinesFit }
    ensures stubs { StubsStand }
    ensures functions { FunctionsStand }
    ensures renamed { RenamedLinesStand }
    ensures plain { UnattributedPartsArePlain }
    ensures sites { SitesAreCounted }
{}
