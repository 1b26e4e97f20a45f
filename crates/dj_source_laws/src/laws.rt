//! The laws.
ghost use Rattle.dj_source_laws.specs.Laws.{AcceptedStandOnce, EachIsPlaced, PlacedOnce, AcceptedHasChain, OneChain, SaidIsListed, JavaSaidIsListed, SaidByTokens, JavaSaidByTokens, PlaceTells, JavaPlaceTells, PlaceTellsPart};

/// In an accepted source each feature, delta, item and part has a name of its own, and so has what stands in each of
/// them. Each delta is placed by one item, of one part.
pub fn stand_once()
    ensures once { AcceptedStandOnce }
    ensures placed { EachIsPlaced }
    ensures placed_once { PlacedOnce }
{}

/// The parts of an accepted source make a chain, in the order in which the products take them, and parts make at most
/// one chain.
pub fn accepted_has_chain()
    ensures chain { AcceptedHasChain }
    ensures one_chain { OneChain }
{}

/// The list of what a source says, or a Java file, has just the things that are said, and each is a token of its text.
pub fn said_is_listed()
    ensures listed { SaidIsListed }
    ensures java_listed { JavaSaidIsListed }
    ensures by_tokens { SaidByTokens }
    ensures java_by_tokens { JavaSaidByTokens }
{}

/// In a source or a Java file that tokens spell, the place of a name, or of a node, tells which name or node it is and
/// what it stands in.
pub fn place_tells()
    ensures tells { PlaceTells }
    ensures java_tells { JavaPlaceTells }
    ensures tells_part { PlaceTellsPart }
{}
