// Text in UTF-16 that is added to an area.
ghost use Rattle.std.specs.Prelude.{◌≡◌, ◌-◌, ◌%◌, length};
ghost use Rattle.tds_text.specs.Cutting.{whole_within};
ghost use Rattle.tds_text.specs.Utf16 as utf16;
ghost use Rattle.tds_meter.specs.Space.{appended};

use crate::joiners::run::Run;
use tds_meter::Area;
use tds_text::utf16::character_at;

/// Adds the characters of text in UTF-16 to an area, as far as whole ones fit its room. A surrogate
/// without a partner becomes U+FFFD, and quotes aren't doubled.
pub fn utf16_into(units: &[u8], to: &mut Area)
    requires { length units.now % 2 ≡ 0 }
    ensures { let room = to.old.room - length to.old.bytes in
        to.new ≡ appended to.old (whole_within room (utf16.characters units.now)) }
{
    let _room = to.free();
    let Ok(()) = to.append(b"") else {
        unreachable!()
    };
    let mut at = 0;
    while at < units.len() {
        let next = character_at(units, at);
        let mut run: Run<4> = Run::new();
        run.push_character(next.code);
        if let Err(_) = to.append(run.bytes()) {
            return;
        }
        at += next.len;
    }
}
