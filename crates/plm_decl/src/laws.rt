//! Laws that tie what is read step by step to the tree of a block, and trees with lists to what these stand for. They compute nothing.

ghost use Rattle.plm_decl.specs.ByPlaces.{ReadByPlaces};
ghost use Rattle.plm_decl.specs.JoinedNames.{ExternalsAreJoined};
ghost use Rattle.plm_decl.specs.Laws.{ConstantsFill, DeclaredIsFound, DeclaresOnce, HaveOwnObjects, InitialBytesFit, InitialValuesFit, InnermostMeans, ListsOnce, MembersOnce, NothingElseTwice, StandsInside, StandsOutside};
ghost use Rattle.plm_decl.specs.OwnNames.{OwnNamesHaveObjects};
ghost use Rattle.plm_decl.specs.ResolvedLists.{ResolvedTreesHaveTheirLists};
ghost use Rattle.plm_decl.specs.PlacedNames.{LocationIsInItsVariable, NamesLieAtTheirLocation, NumberIsOnTheScreen, NumberIsOutside};

/// The law of second declarations: after some items of a block, some elements of a DECLARE and some names of an element, the
/// next name that is declared there is a fault (E302) exactly where one of those before it has its normal form. The same
/// holds of a procedure's parameters and of a structure's members. A program has this fault at no other places: its E302 are
/// those of the names that have the normal form of an earlier one of their block, list of parameters or structure.
pub fn declared_once()
    ensures declared { DeclaresOnce }
    ensures listed { ListsOnce }
    ensures members { MembersOnce }
    ensures nothing_else { NothingElseTwice }
{}

/// The law of scopes: after some items of a block a name stands for what the block declares, if one of them declares it, and
/// else for what it stands for in the blocks around. So at any place in any blocks a name means what the innermost block that
/// declares it before the place declares. And a program is read so: at each place in its trees names are looked up in the scope
/// that the blocks around the place make of what stands before it in them. So a name that is used in a statement, an expression,
/// a CALL or a declaration, at any depth of blocks and procedures, stands for what the innermost block that declares it before
/// its use declares. An AT is read before the names of its element.
pub fn innermost_counts()
    ensures inside { StandsInside }
    ensures outside { StandsOutside }
    ensures means { InnermostMeans }
    ensures found { DeclaredIsFound }
    ensures program { ReadByPlaces }
{}

/// The law of constant bytes: the object that `@( .. )` or `.( .. )` makes has as many bytes as its values fill.
pub fn constants_fill_their_object()
    ensures { ConstantsFill }
{}

/// The law of own objects: names of an element without AT, that are not based and stand in no EXTERNAL procedure, have one
/// object each, in their order. These are new ones, after all that there were. So all through a program such names, where
/// they are not EXTERNAL themselves, have objects whose numbers rise: no two of them have one object.
pub fn names_have_own_objects()
    ensures element { HaveOwnObjects }
    ensures program { OwnNamesHaveObjects }
{}

/// The law of AT: the names of an element with AT lie where its location says, one behind the other. A number is the address of a byte of
/// the screen: of the monochrome page, 0B0000H to 0B0F9FH, or of the colour page, 0B8000H to 0B8F9FH; any other number names no place.
/// A location of a variable in a RAM object, with numbers for subscripts, is the byte of that object at
/// which the variable begins, further on by the elements before the subscript's one and by the bytes before the member.
pub fn names_lie_where_at_says()
    ensures number { NumberIsOnTheScreen }
    ensures outside { NumberIsOutside }
    ensures location { LocationIsInItsVariable }
    ensures names { NamesLieAtTheirLocation }
{}

/// The law of EXTERNAL and PUBLIC: in a program without faults each EXTERNAL name has a PUBLIC one of its normal form and kind. An EXTERNAL
/// variable lies where that PUBLIC one does, and a call of an EXTERNAL procedure runs the body of that PUBLIC one.
pub fn externals_are_joined()
    ensures { ExternalsAreJoined }
{}

/// The law of initial values: in modules whose objects have room in RAM, the initial values of each object have room in it. So
/// wherever the objects of a program lie, each has room for its initial bytes.
pub fn initial_values_fit()
    ensures fit { InitialValuesFit }
    ensures bytes { InitialBytesFit }
{}

/// The law of lists: a resolved tree with a list of others stands for the tree of what these stand for, one after the other.
pub fn resolved_trees_have_their_lists()
    ensures { ResolvedTreesHaveTheirLists }
{}
