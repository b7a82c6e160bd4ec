//! Laws of mails: the contracts of functions with empty bodies. They hold of every run, of states of any
//! type, and of every way to share it out to timelines.
ghost use Rattle.std.specs.Prelude.{◌≡◌, ℕ, ◌≤◌};
ghost use Rattle.ssf_model.specs.declared.event.Event.{Event};
ghost use Rattle.ssf_model.specs.declared.event.Parcel.{Parcel};
ghost use Rattle.ssf_model.specs.Scene.{Scene};
ghost use Rattle.ssf_model.specs.Truth.{IsTrueParcel};
ghost use Rattle.appointments.specs.Mails.{ChannelMail, posted_of, no_mail};
ghost use Rattle.appointments.specs.Posts.{IsSoundMail, posted_mail, taken_mail, taken_parcel};

/// The mail on a channel on which nothing was posted is sound.
pub fn empty_mails_are_sound<X, P>()
    ensures { (s : Scene X (Event P)) (c : ℕ) → IsSoundMail s c (no_mail {P = P}) }
{}

/// A sound mail to which a true parcel is posted that begins at the posted number is sound.
pub fn posts_keep_mails_sound<X, P>()
    ensures { (s : Scene X (Event P)) (c end spare : ℕ) (parcel : Parcel P) (mail : ChannelMail P) → IsSoundMail s c mail → parcel.first ≡ posted_of mail
        → IsTrueParcel s c parcel.first parcel.events end parcel.promise → IsSoundMail s c (posted_mail parcel spare mail) }
{}

/// What is taken of a sound mail is a true parcel, which begins at the taken number and ends at the posted
/// one, and the mail is sound afterwards.
pub fn takes_keep_mails_sound<X, P>()
    ensures parcel { (s : Scene X (Event P)) (c : ℕ) (mail : ChannelMail P) → IsSoundMail s c mail
        → IsTrueParcel s c (taken_parcel mail).first (taken_parcel mail).events (posted_of mail) (taken_parcel mail).promise }
    ensures mail { (s : Scene X (Event P)) (c : ℕ) (mail : ChannelMail P) → IsSoundMail s c mail → IsSoundMail s c (taken_mail mail) }
{}
