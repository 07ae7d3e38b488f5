//! What opening a device answers.

ghost use Rattle.std.specs.Prelude.{◌≡◌, [], ◌∷◌, take};
ghost use Rattle.tp_law_machine.specs.Lower.{Plain, Turns, Narrow, Wide, NotFormatted, BadVersion, NoOpenArea, Damaged, set_byte, verdict};
ghost use Rattle.tp_law_machine.specs.OneDevice.{device_of, device_with, four_entries, fresh_device, later_device, opened_as};

/// Formatted devices with one fault each:
/// - one byte too few for a head;
/// - another version;
/// - a closed gate for its open one;
/// - an open gate after the cut, but no group there;
/// - an unknown form of its area.
pub fn devices_are_refused()
    ensures short { verdict (take 511 fresh_device) ≡ Err NotFormatted }
    ensures version { verdict (set_byte fresh_device 7 9) ≡ Err BadVersion }
    ensures closed { verdict (set_byte fresh_device 512 0) ≡ Err NoOpenArea }
    ensures no_group { verdict (device_with (0xA5 ∷ [])) ≡ Err (Damaged 13033) }
    ensures form { verdict (set_byte fresh_device 531 1) ≡ Err (Damaged 512) }
{}

/// The network is the one that the entries of the group lead to, and the next group goes after them.
pub fn a_device_opens()
    ensures { verdict later_device ≡ Ok (opened_as Narrow Turns 13113) }
{}

/// A device whose area holds no turns opens, too.
pub fn a_plain_area_opens()
    ensures { verdict (device_of Narrow Plain four_entries) ≡ Ok (opened_as Narrow Plain 13113) }
{}

/// A wide head is read, too, of a network for which a narrow one is enough. A wide head that is cut short is damaged.
pub fn a_wide_head_opens()
    ensures opens { verdict (device_of Wide Turns four_entries) ≡ Ok (opened_as Wide Turns 13625) }
    ensures short { verdict (take 1023 (device_of Wide Turns [])) ≡ Err (Damaged 0) }
{}
