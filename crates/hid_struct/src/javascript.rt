//! Classes of JavaScript.
use crate::part::{MemberPart, ReportPart};

/// What stands before all reports.
pub const HEAD: &str = "\
// Reports of a HID device, written by hid struct. A number is the bits of a report from bit SHIFT
// on, under MASK; of several, the next stands STEP bits behind. More than 32 bits are a BigInt,
// more than 64 bytes.

function get(bytes, shift, mask) {
    const bit = shift % 8;
    let value = 0;
    let at = (shift - bit) / 8;
    for (let unit = 1; unit <= mask * 2 ** bit; unit *= 256) value += bytes[at++] * unit;
    return Math.floor(value / 2 ** bit) % (mask + 1);
}

function getSigned(bytes, shift, mask) {
    const value = get(bytes, shift, mask);
    return value > mask / 2 ? value - mask - 1 : value;
}

function getBig(bytes, shift, mask) {
    const bit = BigInt(shift % 8);
    let value = 0n;
    let at = Math.floor(shift / 8);
    for (let unit = 1n; unit <= mask << bit; unit <<= 8n) value += BigInt(bytes[at++]) * unit;
    return value >> bit & mask;
}

function getBigSigned(bytes, shift, mask) {
    const value = getBig(bytes, shift, mask);
    return value > mask >> 1n ? value - mask - 1n : value;
}

function getBytes(bytes, shift, bits) {
    const value = new Uint8Array(Math.ceil(bits / 8));
    for (let at = 0; at < bits; at += 8) value[at / 8] = get(bytes, shift + at, maskAt(at, bits));
    return value;
}

function maskAt(at, bits) {
    return 2 ** Math.min(8, bits - at) - 1;
}

function refuse(name, value) {
    throw new RangeError(`${name} does not fit: ${value}`);
}

function check(name, value, mask) {
    if (!Number.isInteger(value) || value < 0 || value > mask) refuse(name, value);
}

function checkSigned(name, value, mask) {
    const most = (mask - 1) / 2;
    if (!Number.isInteger(value) || value < -most - 1 || value > most) refuse(name, value);
}

function checkBig(name, value, mask) {
    if (typeof value !== 'bigint' || value < 0n || value > mask) refuse(name, value);
}

function checkBigSigned(name, value, mask) {
    const most = mask >> 1n;
    if (typeof value !== 'bigint' || value < -most - 1n || value > most) refuse(name, value);
}

function checkCount(name, value, count) {
    if (value.length === count) return;
    throw new RangeError(`${name} has ${value.length} values of ${count}`);
}

function checkBytes(name, value, bits) {
    checkCount(name, value, Math.ceil(bits / 8));
    for (let at = 0; at < bits; at += 8) check(name, value[at / 8], maskAt(at, bits));
}

function put(bytes, shift, mask, value) {
    let rest = (value < 0 ? value + mask + 1 : value) * 2 ** (shift % 8);
    for (let at = Math.floor(shift / 8); rest > 0; at++) {
        bytes[at] |= rest % 256;
        rest = Math.floor(rest / 256);
    }
}

function putBig(bytes, shift, mask, value) {
    let rest = (value & mask) << BigInt(shift % 8);
    for (let at = Math.floor(shift / 8); rest > 0n; at++) {
        bytes[at] |= Number(rest & 255n);
        rest >>= 8n;
    }
}

function putBytes(bytes, shift, bits, value) {
    for (let at = 0; at < bits; at += 8) put(bytes, shift + at, maskAt(at, bits), value[at / 8]);
}
";

/// The text of a report's part.
pub fn report_text(part: ReportPart) -> &'static str {
    match part {
        ReportPart::Open => "export class $Report {\n",
        ReportPart::Size => "\n    static SIZE = $size;\n",
        ReportPart::Id => "    static ID = $id;\n",
        ReportPart::Decode => DECODE,
        ReportPart::IdTest => ID_TEST,
        ReportPart::Values => "        const report = new $Report();\n",
        ReportPart::Encode => ENCODE,
        ReportPart::Blank => "        const bytes = new Uint8Array($Report.SIZE);\n",
        ReportPart::IdPut => "        bytes[0] = $Report.ID;\n",
        ReportPart::End => "        return bytes;\n    }\n}\n",
    }
}

const DECODE: &str = "
    /** The values of a report; one of too few bytes or of another id is refused. */
    static decode(bytes) {
        const { length } = bytes;
        if (length < $Report.SIZE) throw new RangeError(`${length} bytes of ${$Report.SIZE}`);
";

const ID_TEST: &str = "        \
if (bytes[0] !== $Report.ID) throw new RangeError(`report id ${bytes[0]}, not ${$Report.ID}`);
";

const ENCODE: &str = "        return report;
    }

    /** The bytes of a report; a value that does not fit is refused. */
    encode() {
";

/// The text of a part of a member that holds a number.
pub fn number_text(part: MemberPart) -> &'static str {
    match part {
        MemberPart::Declared => "    $name = 0$n;\n",
        MemberPart::Places => PLACE,
        MemberPart::Read => READ_NUMBER,
        MemberPart::Checked => CHECK_NUMBER,
        MemberPart::Written => WRITE_NUMBER,
    }
}

const PLACE: &str = "    static $NAME_SHIFT = $shift;
    static $NAME_MASK = $mask$n;
";

const READ_NUMBER: &str = "        report.$name = \
get$Big$Signed(bytes, $Report.$NAME_SHIFT, $Report.$NAME_MASK);
";

const CHECK_NUMBER: &str = "        \
check$Big$Signed('$name', this.$name, $Report.$NAME_MASK);
";

const WRITE_NUMBER: &str = "        \
put$Big(bytes, $Report.$NAME_SHIFT, $Report.$NAME_MASK, this.$name);
";

/// The text of a part of a member that holds several numbers.
pub fn numbers_text(part: MemberPart) -> &'static str {
    match part {
        MemberPart::Declared => "    $name = new Array($count).fill(0$n);\n",
        MemberPart::Places => PLACES,
        MemberPart::Read => READ_NUMBERS,
        MemberPart::Checked => CHECK_NUMBERS,
        MemberPart::Written => WRITE_NUMBERS,
    }
}

const PLACES: &str = "    static $NAME_SHIFT = $shift;
    static $NAME_MASK = $mask$n;
    static $NAME_STEP = $step;
    static $NAME_COUNT = $count;
";

const READ_NUMBERS: &str = "        for (let i = 0; i < $Report.$NAME_COUNT; i++) {
            const shift = $Report.$NAME_SHIFT + i * $Report.$NAME_STEP;
            report.$name[i] = get$Big$Signed(bytes, shift, $Report.$NAME_MASK);
        }
";

const CHECK_NUMBERS: &str = "        checkCount('$name', this.$name, $Report.$NAME_COUNT);
        for (const value of this.$name) check$Big$Signed('$name', value, $Report.$NAME_MASK);
";

const WRITE_NUMBERS: &str = "        for (let i = 0; i < $Report.$NAME_COUNT; i++) {
            const shift = $Report.$NAME_SHIFT + i * $Report.$NAME_STEP;
            put$Big(bytes, shift, $Report.$NAME_MASK, this.$name[i]);
        }
";

/// The text of a part of a member that holds bytes.
pub fn bytes_text(part: MemberPart) -> &'static str {
    match part {
        MemberPart::Declared => "    $name = new Uint8Array($bytes);\n",
        MemberPart::Places => BYTES_PLACE,
        MemberPart::Read => READ_BYTES,
        MemberPart::Checked => CHECK_BYTES,
        MemberPart::Written => WRITE_BYTES,
    }
}

const BYTES_PLACE: &str = "    static $NAME_SHIFT = $shift;
    static $NAME_BITS = $bits;
";

const READ_BYTES: &str = "        \
report.$name = getBytes(bytes, $Report.$NAME_SHIFT, $Report.$NAME_BITS);
";

const CHECK_BYTES: &str = "        \
checkBytes('$name', this.$name, $Report.$NAME_BITS);
";

const WRITE_BYTES: &str = "        \
putBytes(bytes, $Report.$NAME_SHIFT, $Report.$NAME_BITS, this.$name);
";
