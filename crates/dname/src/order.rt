ghost use Rattle.std.specs.Prelude.{◌≡◌, ◌≢◌, ◌<◌, List, length};
ghost use Rattle.std.specs.declared.cmp.Ordering.TheVariants.{Less};
ghost use Rattle.dname.specs.Digest.{digest_below};
ghost use Rattle.dname.specs.Name.{Label, IsName, IsUnder, canonical_cmp};

/// In canonical order a name is followed by the names below it, and by no other before the last of them.
pub fn descendants_stand_together()
    ensures first { (name ancestor : List Label) → IsUnder name ancestor → name ≢ ancestor
        → canonical_cmp ancestor name ≡ Less }
    ensures together { (ancestor name last : List Label) → IsUnder last ancestor
        → canonical_cmp name ancestor ≢ Less → canonical_cmp last name ≢ Less
        → IsUnder name ancestor }
{}

/// Of two names under one apex, the one with the lesser digest goes first. Equal digests say nothing.
pub fn digest_keeps_the_order()
    ensures { (apex name other : List Label) → IsName other
        → IsUnder name apex → IsUnder other apex
        → digest_below (length apex) name < digest_below (length apex) other
        → canonical_cmp name other ≡ Less }
{}
