//! Classes of Python.
use crate::part::{MemberPart, ReportPart};

/// What stands before all reports.
pub const HEAD: &str = "\
# Reports of a HID device, written by hid struct. A number is the bits of a report from bit SHIFT
# on, under MASK; of several, the next stands STEP bits behind. More than 64 bits are bytes.
import dataclasses


def _get(data, shift, mask):
    part = data[shift // 8:(shift + mask.bit_length() + 7) // 8]
    return int.from_bytes(part, 'little') >> shift % 8 & mask


def _get_signed(data, shift, mask):
    value = _get(data, shift, mask)
    return value - mask - 1 if value > mask >> 1 else value


def _get_bytes(data, shift, bits):
    return _get(data, shift, (1 << bits) - 1).to_bytes((bits + 7) // 8, 'little')


def _check(name, value, mask):
    if not 0 <= value <= mask:
        raise ValueError(f'{name} does not fit: {value}')


def _check_signed(name, value, mask):
    if not -(mask >> 1) - 1 <= value <= mask >> 1:
        raise ValueError(f'{name} does not fit: {value}')


def _check_count(name, value, count):
    if len(value) != count:
        raise ValueError(f'{name} has {len(value)} values of {count}')


def _check_bytes(name, value, bits):
    _check_count(name, value, (bits + 7) // 8)
    if int.from_bytes(value, 'little') >> bits:
        raise ValueError(f'{name} does not fit')


def _put(data, shift, mask, value):
    place = slice(shift // 8, (shift + mask.bit_length() + 7) // 8)
    part = int.from_bytes(data[place], 'little') | (value & mask) << shift % 8
    data[place] = part.to_bytes(place.stop - place.start, 'little')


def _put_bytes(data, shift, bits, value):
    _put(data, shift, (1 << bits) - 1, int.from_bytes(value, 'little'))

";

/// The text of a report's part.
pub fn report_text(part: ReportPart) -> &'static str {
    match part {
        ReportPart::Open => "@dataclasses.dataclass\nclass $Report:\n",
        ReportPart::Size => "\n    SIZE = $size\n",
        ReportPart::Id => "    ID = $id\n",
        ReportPart::Decode => DECODE,
        ReportPart::IdTest => ID_TEST,
        ReportPart::Values => "        return cls(\n",
        ReportPart::Encode => ENCODE,
        ReportPart::Blank => "        data = bytearray(self.SIZE)\n",
        ReportPart::IdPut => "        data[0] = self.ID\n",
        ReportPart::End => "        return bytes(data)\n\n",
    }
}

const DECODE: &str = "
    @classmethod
    def decode(cls, data):
        '''The values of a report; one of too few bytes or of another id is refused.'''
        if len(data) < cls.SIZE:
            raise ValueError(f'{len(data)} bytes of {cls.SIZE}')
";

const ID_TEST: &str = "        if data[0] != cls.ID:
            raise ValueError(f'report id {data[0]}, not {cls.ID}')
";

const ENCODE: &str = "        )

    def encode(self):
        '''The bytes of a report; a value that does not fit is refused.'''
";

/// The text of a part of a member that holds a number.
pub fn number_text(part: MemberPart) -> &'static str {
    match part {
        MemberPart::Declared => "    $name: int = 0\n",
        MemberPart::Places => "    $NAME_SHIFT = $shift\n    $NAME_MASK = $mask\n",
        MemberPart::Read => {
            "            $name=_get$signed(data, cls.$NAME_SHIFT, cls.$NAME_MASK),\n"
        }
        MemberPart::Checked => { "        _check$signed('$name', self.$name, self.$NAME_MASK)\n" }
        MemberPart::Written => {
            "        _put(data, self.$NAME_SHIFT, self.$NAME_MASK, self.$name)\n"
        }
    }
}

/// The text of a part of a member that holds several numbers.
pub fn numbers_text(part: MemberPart) -> &'static str {
    match part {
        MemberPart::Declared => {
            "    $name: list = dataclasses.field(default_factory=lambda: [0] * $count)\n"
        }
        MemberPart::Places => PLACES,
        MemberPart::Read => READ_NUMBERS,
        MemberPart::Checked => CHECK_NUMBERS,
        MemberPart::Written => WRITE_NUMBERS,
    }
}

const PLACES: &str = "    $NAME_SHIFT = $shift
    $NAME_MASK = $mask
    $NAME_STEP = $step
    $NAME_COUNT = $count
";

const READ_NUMBERS: &str = "            $name=[
                _get$signed(data, cls.$NAME_SHIFT + i * cls.$NAME_STEP, cls.$NAME_MASK)
                for i in range(cls.$NAME_COUNT)
            ],
";

const CHECK_NUMBERS: &str = "        _check_count('$name', self.$name, self.$NAME_COUNT)
        for value in self.$name:
            _check$signed('$name', value, self.$NAME_MASK)
";

const WRITE_NUMBERS: &str = "        for i, value in enumerate(self.$name):
            _put(data, self.$NAME_SHIFT + i * self.$NAME_STEP, self.$NAME_MASK, value)
";

/// The text of a part of a member that holds bytes.
pub fn bytes_text(part: MemberPart) -> &'static str {
    match part {
        MemberPart::Declared => "    $name: bytes = bytes($bytes)\n",
        MemberPart::Places => "    $NAME_SHIFT = $shift\n    $NAME_BITS = $bits\n",
        MemberPart::Read => {
            "            $name=_get_bytes(data, cls.$NAME_SHIFT, cls.$NAME_BITS),\n"
        }
        MemberPart::Checked => "        _check_bytes('$name', self.$name, self.$NAME_BITS)\n",
        MemberPart::Written => {
            "        _put_bytes(data, self.$NAME_SHIFT, self.$NAME_BITS, self.$name)\n"
        }
    }
}
