//! Attributes.

ghost use Rattle.std.specs.Prelude.{◌<◌, ◌≤◌, IsTrue};
ghost use Rattle.alm_types.specs.Texts.{is_tag, is_text};
ghost use Rattle.alm_types.specs.Readings.{IsReading};
ghost use Rattle.alm_types.specs.Attributes.{deadband_limit};
ghost use Rattle.alm_types.specs.Sizes.{most_areas};

use crate::attr_fault::AttrFault;
use crate::kind::Kind;
use crate::reading::Reading;
use crate::settings::Settings;
use crate::table::MOST_AREAS;
use crate::tag::Tag;
use crate::text::Text;

/// The attributes of an alarm, each in its limits.
#[derive(Clone, Copy, Debug)]
pub struct Attr {
    pub kind: Kind,
    pub setpoint: Reading,
    /// The deadband: how far a value must return past the setpoint; 0 for a discrete alarm.
    pub deadband: u64,
    /// 1, the highest, to 4.
    pub priority: u8,
    /// The operating position, below [`MOST_AREAS`].
    pub area: u8,
    /// Whether the alarm stays annunciated until it is reset, after it was acknowledged and its condition no longer
    /// holds.
    pub latching: bool,
    /// The longest shelving in seconds; 0 if the alarm may not be shelved.
    pub max_shelve: u32,
    pub tag: Tag,
    pub text: Text,
    ghost setpoint_range: { IsReading setpoint },
    ghost deadband_limit: { deadband ≤ deadband_limit kind },
    ghost priority_limits: { (1 ≤ priority) × (priority ≤ 4) },
    ghost area_limit: { area < most_areas },
    ghost max_shelve_limit: { max_shelve ≤ 604800 },
    ghost tag_limits: { IsTrue (is_tag tag) },
    ghost text_limits: { IsTrue (is_text text) },
}

impl Attr {
    ghost use Rattle.std.specs.Prelude.{◌≡◌, ◌≤◌, None, Some, IfOk, IfErr, OnOk};
    ghost use Rattle.alm_types.specs.Attributes.{attr_fault};
    ghost use Rattle.alm_types.specs.Changes.{with_priority, with_setpoint};

    /// Attributes within their limits, or the first that is not: setpoint, deadband, priority, area, max_shelve, tag,
    /// text.
    pub fn new(settings: Settings, tag: &[u8], text: &[u8]) -> Result<Self, AttrFault>
        ensures good { OnOk result (attr_fault settings tag.now text.now ≡ None) }
        ensures fault { IfErr result (λ fault. attr_fault settings tag.now text.now ≡ Some fault) }
        ensures settings { IfOk result
            (λ a. record {
              kind = a.kind;
              setpoint = a.setpoint;
              deadband = a.deadband;
              priority = a.priority;
              area = a.area;
              latching = a.latching;
              max_shelve = a.max_shelve;
            } ≡ settings) }
        ensures tag { IfOk result (λ a. a.tag ≡ tag.now) }
        ensures text { IfOk result (λ a. a.text ≡ text.now) }
    {
        let setpoint = Reading::new(settings.setpoint).ok_or(AttrFault::Setpoint)?;
        if settings.deadband > settings.kind.deadband_limit() {
            return Err(AttrFault::Deadband);
        }
        if settings.priority < 1 || settings.priority > 4 {
            return Err(AttrFault::Priority);
        }
        if settings.area >= MOST_AREAS {
            return Err(AttrFault::Area);
        }
        if settings.max_shelve > 604_800 {
            return Err(AttrFault::MaxShelve);
        }
        let tag = Tag::new(tag).ok_or(AttrFault::Tag)?;
        let text = Text::new(text).ok_or(AttrFault::Text)?;
        Ok(Attr {
            kind: settings.kind,
            setpoint,
            deadband: settings.deadband,
            priority: settings.priority,
            area: settings.area,
            latching: settings.latching,
            max_shelve: settings.max_shelve,
            tag,
            text,
        })
    }

    /// The same attributes with another priority.
    pub fn with_priority(self, priority: u8) -> Self
        requires limits { (1 ≤ priority) × (priority ≤ 4) }
        ensures { result ≡ with_priority priority self }
    {
        Attr {
            kind: self.kind,
            setpoint: self.setpoint,
            deadband: self.deadband,
            priority,
            area: self.area,
            latching: self.latching,
            max_shelve: self.max_shelve,
            tag: self.tag,
            text: self.text,
        }
    }

    /// The same attributes with another setpoint.
    pub fn with_setpoint(self, setpoint: Reading) -> Self
        ensures { result ≡ with_setpoint setpoint self }
    {
        Attr {
            kind: self.kind,
            setpoint,
            deadband: self.deadband,
            priority: self.priority,
            area: self.area,
            latching: self.latching,
            max_shelve: self.max_shelve,
            tag: self.tag,
            text: self.text,
        }
    }
}
