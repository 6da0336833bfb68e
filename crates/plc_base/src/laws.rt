//! Laws of tags, of octets and of sorted numbers. Each is the contract of a function that does nothing.
ghost use Rattle.plc_base.specs.OctetLaws.{BigNumbersAreOctets, EachOctetFits, LittleNumbersAreOctets, RestsAreOctets, PartsAreOctets};
ghost use Rattle.plc_base.specs.Orders.{OneSortedPermutation, SortedNumbersAreOrdered};
ghost use Rattle.plc_base.specs.Tags.{OneSpellingOneTag};

/// Two tags with one spelling are the same.
pub fn one_spelling_one_tag()
    ensures { OneSpellingOneTag }
{}

/// There is one way to sort numbers.
pub fn one_sorted_permutation()
    ensures { OneSortedPermutation }
{}

/// The numbers of a list, sorted, are those of the list in their order.
pub fn sorted_numbers_are_ordered<A>()
    ensures { SortedNumbersAreOrdered A }
{}

/// A number in fixed width is octets, its highest octet first or its lowest.
pub fn numbers_are_octets()
    ensures big { BigNumbersAreOctets }
    ensures little { LittleNumbersAreOctets }
{}

/// An octet of octets is below 256; what follows a place of octets is octets, and so is each part of them.
pub fn parts_of_octets_are_octets()
    ensures octet { EachOctetFits }
    ensures rest { RestsAreOctets }
    ensures part { PartsAreOctets }
{}
