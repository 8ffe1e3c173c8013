//! Structs of C.
use crate::part::{MemberPart, ReportPart};

/// What stands before all reports.
pub const HEAD: &str = "\
/* Reports of a HID device, written by hid struct. A number is the bits of a report from bit SHIFT
   on, under MASK; of several, the next stands STEP bits behind. More than 64 bits are bytes. */
#include <stdbool.h>
#include <stddef.h>
#include <stdint.h>
#include <string.h>

#ifndef HID_STRUCT_BITS
#define HID_STRUCT_BITS

static inline uint64_t hid_get(const uint8_t *bytes, size_t shift, uint64_t mask)
{
    const uint8_t *from = bytes + shift / 8;
    unsigned bit = shift % 8;
    uint64_t value = from[0];

    for (unsigned at = 8; at < 64 && mask >> (at - bit); at += 8)
        value |= (uint64_t)from[at / 8] << at;
    value >>= bit;
    if (bit && mask >> (64 - bit))
        value |= (uint64_t)from[8] << (64 - bit);
    return value & mask;
}

static inline int64_t hid_get_signed(const uint8_t *bytes, size_t shift, uint64_t mask)
{
    uint64_t sign = (mask >> 1) + 1;

    return (int64_t)((hid_get(bytes, shift, mask) ^ sign) - sign);
}

static inline bool hid_fits(uint64_t value, uint64_t mask)
{
    return value <= mask;
}

static inline bool hid_fits_signed(int64_t value, uint64_t mask)
{
    return (uint64_t)value + (mask >> 1) + 1 <= mask;
}

/* The bits are 0 before. */
static inline void hid_put(uint8_t *bytes, size_t shift, uint64_t mask, uint64_t value)
{
    uint8_t *to = bytes + shift / 8;
    unsigned bit = shift % 8;

    value &= mask;
    to[0] |= (uint8_t)(value << bit);
    for (unsigned at = 8 - bit; at < 64 && mask >> at; at += 8)
        *++to |= (uint8_t)(value >> at);
}

static inline uint64_t hid_mask_at(size_t at, size_t bits)
{
    return bits - at < 8 ? 0xffu >> (8 - (bits - at)) : 0xffu;
}

static inline void hid_get_bytes(const uint8_t *bytes, size_t shift, size_t bits, uint8_t *to)
{
    for (size_t at = 0; at < bits; at += 8)
        to[at / 8] = (uint8_t)hid_get(bytes, shift + at, hid_mask_at(at, bits));
}

static inline bool hid_fits_bytes(const uint8_t *from, size_t bits)
{
    return bits % 8 == 0 || from[bits / 8] >> bits % 8 == 0;
}

static inline void hid_put_bytes(uint8_t *bytes, size_t shift, size_t bits, const uint8_t *from)
{
    for (size_t at = 0; at < bits; at += 8)
        hid_put(bytes, shift + at, hid_mask_at(at, bits), from[at / 8]);
}

#endif
";

/// The text of a report's part.
pub fn report_text(part: ReportPart) -> &'static str {
    match part {
        ReportPart::Open => "typedef struct {\n",
        ReportPart::Size => "} $report;\n\n#define $REPORT_SIZE $size\n",
        ReportPart::Id => "#define $REPORT_ID $id\n",
        ReportPart::Decode => DECODE,
        ReportPart::IdTest => "    if (bytes[0] != $REPORT_ID)\n        return false;\n",
        ReportPart::Values => "",
        ReportPart::Encode => ENCODE,
        ReportPart::Blank => "    memset(bytes, 0, $REPORT_SIZE);\n",
        ReportPart::IdPut => "    bytes[0] = $REPORT_ID;\n",
        ReportPart::End => "    return true;\n}\n",
    }
}

const DECODE: &str = "
/* Reads a report; false where it has too few bytes or another id. */
static inline bool $report_decode(const uint8_t *bytes, size_t length, $report *report)
{
    if (length < $REPORT_SIZE)
        return false;
";

const ENCODE: &str = "    return true;
}

/* Writes a report; false, and nothing is written, where there is too little room or a value doesn't
   fit. */
static inline bool $report_encode(const $report *report, uint8_t *bytes, size_t length)
{
    if (length < $REPORT_SIZE)
        return false;
";

/// The text of a part of a member that holds a number.
pub fn number_text(part: MemberPart) -> &'static str {
    match part {
        MemberPart::Declared => "    $type $name;\n",
        MemberPart::Places => PLACE,
        MemberPart::Read => READ_NUMBER,
        MemberPart::Checked => CHECK_NUMBER,
        MemberPart::Written => WRITE_NUMBER,
    }
}

const PLACE: &str = "\
#define $REPORT_$NAME_SHIFT $shift
#define $REPORT_$NAME_MASK UINT64_C($mask)
";

const READ_NUMBER: &str = "    report->$name = \
($type)hid_get$signed(bytes, $REPORT_$NAME_SHIFT, $REPORT_$NAME_MASK);
";

const CHECK_NUMBER: &str = "    if (!hid_fits$signed(report->$name, $REPORT_$NAME_MASK))
        return false;
";

const WRITE_NUMBER: &str = "    hid_put(bytes, $REPORT_$NAME_SHIFT, $REPORT_$NAME_MASK, \
(uint64_t)report->$name);
";

/// The text of a part of a member that holds several numbers.
pub fn numbers_text(part: MemberPart) -> &'static str {
    match part {
        MemberPart::Declared => "    $type $name[$count];\n",
        MemberPart::Places => PLACES,
        MemberPart::Read => READ_NUMBERS,
        MemberPart::Checked => CHECK_NUMBERS,
        MemberPart::Written => WRITE_NUMBERS,
    }
}

const PLACES: &str = "\
#define $REPORT_$NAME_SHIFT $shift
#define $REPORT_$NAME_MASK UINT64_C($mask)
#define $REPORT_$NAME_STEP $step
#define $REPORT_$NAME_COUNT $count
";

const READ_NUMBERS: &str = "    for (size_t i = 0; i < $REPORT_$NAME_COUNT; i++)
        report->$name[i] = ($type)hid_get$signed(
            bytes, $REPORT_$NAME_SHIFT + i * $REPORT_$NAME_STEP, $REPORT_$NAME_MASK);
";

const CHECK_NUMBERS: &str = "    for (size_t i = 0; i < $REPORT_$NAME_COUNT; i++)
        if (!hid_fits$signed(report->$name[i], $REPORT_$NAME_MASK))
            return false;
";

const WRITE_NUMBERS: &str = "    for (size_t i = 0; i < $REPORT_$NAME_COUNT; i++)
        hid_put(bytes, $REPORT_$NAME_SHIFT + i * $REPORT_$NAME_STEP, $REPORT_$NAME_MASK,
            (uint64_t)report->$name[i]);
";

/// The text of a part of a member that holds bytes.
pub fn bytes_text(part: MemberPart) -> &'static str {
    match part {
        MemberPart::Declared => "    uint8_t $name[$bytes];\n",
        MemberPart::Places => "\
#define $REPORT_$NAME_SHIFT $shift
#define $REPORT_$NAME_BITS $bits
",
        MemberPart::Read => READ_BYTES,
        MemberPart::Checked => CHECK_BYTES,
        MemberPart::Written => WRITE_BYTES,
    }
}

const READ_BYTES: &str = "    \
hid_get_bytes(bytes, $REPORT_$NAME_SHIFT, $REPORT_$NAME_BITS, report->$name);
";

const CHECK_BYTES: &str = "    if (!hid_fits_bytes(report->$name, $REPORT_$NAME_BITS))
        return false;
";

const WRITE_BYTES: &str = "    \
hid_put_bytes(bytes, $REPORT_$NAME_SHIFT, $REPORT_$NAME_BITS, report->$name);
";
