//! A law over the definitions, as a function with an empty body.
ghost use Rattle.pm3_pagefile.specs.HeadLaws.{HeadDepartureStands, HeadHasForm, OneHead};

/// The bytes of page 0: those of marks have the form, those of two sets of marks are not the same, and the first field that
/// departs can't be mended by what stands behind it.
pub fn heads()
    ensures form { HeadHasForm }
    ensures one { OneHead }
    ensures stands { HeadDepartureStands }
{}
