//! The constant texts of a page.
// Written by checks/tree/page.sh from crates/hid_page/page: edit these.

/// What stands before the title.
#[rattlefmt::skip]
pub const BEFORE_TITLE: &str = "\
<!DOCTYPE html>\n\
<html lang=\"en\">\n\
<head>\n\
<meta charset=\"utf-8\">\n\
<meta http-equiv=\"Content-Security-Policy\" content=\"default-src 'none'; script-src 'sha256-kzyhInKQ3zNLFSvsMDxXo/qAvbUQLQIc3tEJjbxDfQ4='; style-src 'sha256-IHFfdsbjPRayGXfGNQ3md4unQnG4BexzS5A3eGCQkgY='; base-uri 'none'; form-action 'none'; require-trusted-types-for 'script'; trusted-types 'none'\">\n\
<meta name=\"viewport\" content=\"width=device-width, initial-scale=1\">\n\
<meta name=\"color-scheme\" content=\"light dark\">\n\
<meta name=\"referrer\" content=\"no-referrer\">\n\
<title>";

/// What stands between the title and the heading.
#[rattlefmt::skip]
pub const BEFORE_HEADING: &str = "\
\x20- HID report descriptor</title>\n\
<style>\n\
/* Light, and dark where that is wanted; wide in two columns, narrow in one; and on paper. */\n\
\n\
:root {\n\
\x20 --ink: #1b1f24;\n\
\x20 --pale: #59636e;\n\
\x20 --ground: #ffffff;\n\
\x20 --panel: #f6f8fa;\n\
\x20 --edge: #d1d9e0;\n\
\x20 --accent: #0860ca;\n\
\x20 --near: #fff1b3;\n\
\x20 --far: #e2efff;\n\
\x20 --refused: #b3202a;\n\
\x20 --tint-light: 92%;\n\
\x20 --tint-strength: 75%;\n\
\x20 --main: #0550ae;\n\
\x20 --global: #8a4600;\n\
\x20 --local: #116329;\n\
\x20 --mono: ui-monospace, \"SFMono-Regular\", Menlo, Consolas, \"Liberation Mono\", monospace;\n\
\x20 color-scheme: light dark;\n\
}\n\
\n\
@media (prefers-color-scheme: dark) {\n\
\x20 :root {\n\
\x20   --ink: #e6edf3;\n\
\x20   --pale: #9da7b1;\n\
\x20   --ground: #0f1318;\n\
\x20   --panel: #181d24;\n\
\x20   --edge: #38414b;\n\
\x20   --accent: #6cb0ff;\n\
\x20   --near: #403505;\n\
\x20   --far: #17304f;\n\
\x20   --refused: #ff8f88;\n\
\x20   --tint-light: 22%;\n\
\x20   --tint-strength: 32%;\n\
\x20   --main: #82b8ff;\n\
\x20   --global: #f0b26b;\n\
\x20   --local: #7fd48f;\n\
\x20 }\n\
}\n\
\n\
* { box-sizing: border-box; }\n\
\n\
body {\n\
\x20 margin: 0 auto;\n\
\x20 max-width: 110rem;\n\
\x20 padding: 1.5rem clamp(1rem, 3vw, 2.5rem) 2rem;\n\
\x20 background: var(--ground);\n\
\x20 color: var(--ink);\n\
\x20 font: 15px/1.5 system-ui, -apple-system, \"Segoe UI\", Roboto, \"Noto Sans\", sans-serif;\n\
}\n\
\n\
h1, h2, h3, p, dl, dd { margin: 0; }\n\
h1 { font-size: 1.9rem; line-height: 1.2; overflow-wrap: anywhere; text-wrap: balance; }\n\
h2 { font-size: 1.05rem; font-weight: 650; margin-bottom: .6rem; }\n\
h3 { font-size: 1rem; font-weight: 650; margin-bottom: .6rem; }\n\
h3 .pale { font-weight: 400; margin-left: .4rem; }\n\
code, pre, .bytes, .bits, .usage, .offset, .digits, .time, .samples td { font-family: var(--mono); }\n\
code, .items, .bits, .usage, .bytes { font-size: .82rem; }\n\
.pale { color: var(--pale); }\n\
.kind { color: var(--pale); font-size: .9rem; }\n\
.hidden {\n\
\x20 position: absolute;\n\
\x20 width: 1px;\n\
\x20 height: 1px;\n\
\x20 overflow: hidden;\n\
\x20 clip-path: inset(50%);\n\
\x20 white-space: nowrap;\n\
}\n\
\n\
.facts { display: flex; flex-wrap: wrap; gap: .5rem 2rem; margin-top: 1rem; }\n\
dt { color: var(--pale); font-size: .8rem; }\n\
dd { overflow-wrap: anywhere; font-variant-numeric: tabular-nums; }\n\
.refusal, .note {\n\
\x20 margin-top: 1rem;\n\
\x20 padding: .6rem .9rem;\n\
\x20 border-left: .25rem solid var(--edge);\n\
\x20 background: var(--panel);\n\
\x20 border-radius: .25rem;\n\
}\n\
.refusal { border-color: var(--refused); }\n\
.refusal strong { color: var(--refused); }\n\
\n\
.columns {\n\
\x20 display: grid;\n\
\x20 grid-template-columns: minmax(0, 1fr);\n\
\x20 gap: 2rem;\n\
\x20 margin-top: 1.75rem;\n\
}\n\
\n\
.wide { overflow-x: auto; }\n\
table { border-collapse: collapse; width: 100%; }\n\
th, td { padding: .2rem .55rem; text-align: left; vertical-align: top; }\n\
thead th {\n\
\x20 color: var(--pale);\n\
\x20 font: 400 .8rem/1.5 system-ui, -apple-system, \"Segoe UI\", Roboto, \"Noto Sans\", sans-serif;\n\
\x20 border-bottom: 1px solid var(--edge);\n\
\x20 white-space: nowrap;\n\
}\n\
tbody th { font-weight: 400; }\n\
\n\
.hint { margin-top: 1rem; color: var(--pale); font-size: .9rem; }\n\
.legend { margin-left: .5rem; font-size: .8rem; }\n\
\n\
/* Items. */\n\
.items .offset { color: var(--pale); text-align: right; width: 1%; }\n\
.items thead .is-offset { text-align: right; }\n\
.items .bytes { color: var(--pale); width: 1%; white-space: nowrap; }\n\
.items .bytes.long { white-space: normal; }\n\
.items .words { padding-left: calc(.55rem + var(--depth, 0) * .9rem); font-family: var(--mono); }\n\
.items td, .items tbody th { padding-block: .1rem; }\n\
.words.main { color: var(--main); font-weight: 600; }\n\
.words.global { color: var(--global); }\n\
.words.local { color: var(--local); }\n\
.words.reserved, .items .fault { color: var(--refused); }\n\
.items .remark { color: var(--pale); font-style: italic; }\n\
.items .fault { font-weight: 600; }\n\
\n\
/* Reports. */\n\
.report { margin-bottom: 2.5rem; }\n\
.fields { margin-top: 1rem; font-size: .93rem; }\n\
.fields td, .fields th { border-bottom: 1px solid var(--edge); vertical-align: baseline; }\n\
.fields .plot { vertical-align: top; }\n\
.fields .bits { white-space: nowrap; }\n\
.fields .name {\n\
\x20 padding-left: calc(.55rem + var(--depth, 0) * .9rem);\n\
\x20 min-width: 11rem;\n\
\x20 overflow-wrap: break-word;\n\
}\n\
.fields .collection {\n\
\x20 padding: .45rem .55rem .2rem calc(.55rem + var(--depth, 0) * .9rem);\n\
\x20 font-weight: 600;\n\
}\n\
.fields .how { color: var(--pale); min-width: 7.5rem; }\n\
.fields .usage { color: var(--pale); }\n\
.fields .value { min-width: 5.5rem; max-width: 16rem; font-variant-numeric: tabular-nums; }\n\
.is-changed { font-weight: 700; }\n\
.swatch {\n\
\x20 display: inline-block;\n\
\x20 width: .75em;\n\
\x20 height: .75em;\n\
\x20 margin-right: .5em;\n\
\x20 border: 1px solid var(--edge);\n\
\x20 border-radius: .2em;\n\
}\n\
summary { cursor: pointer; }\n\
\n\
/* Maps. */\n\
.map { table-layout: fixed; min-width: 34rem; }\n\
.map th { color: var(--pale); text-align: center; font-size: .8rem; font-weight: 400; }\n\
.map thead th { border-bottom: 0; }\n\
.map tbody th { vertical-align: middle; text-align: right; font-variant-numeric: tabular-nums; }\n\
.map tr > th:first-child { width: 4.2rem; text-align: right; }\n\
.cell {\n\
\x20 border: 1px solid var(--edge);\n\
\x20 padding: .3rem .25rem;\n\
\x20 text-align: center;\n\
\x20 font-size: .8rem;\n\
\x20 line-height: 1.25;\n\
\x20 overflow: hidden;\n\
}\n\
.cell .name { display: block; overflow-wrap: anywhere; }\n\
.cell .digits { display: block; min-height: 1.25em; font-size: .78rem; letter-spacing: .08em; }\n\
.cell.padding, .swatch.padding {\n\
\x20 color: var(--pale);\n\
\x20 background: repeating-linear-gradient(-45deg, transparent 0 5px, var(--panel) 5px 10px);\n\
}\n\
.cell.empty { color: var(--pale); background: var(--panel); }\n\
[data-key] { cursor: pointer; scroll-margin: 2rem; }\n\
.player ~ .columns [data-key] { scroll-margin-top: 8rem; }\n\
\n\
.tint-0 { background: hsl(212, var(--tint-strength), var(--tint-light)); }\n\
.tint-1 { background: hsl(30, var(--tint-strength), var(--tint-light)); }\n\
.tint-2 { background: hsl(140, var(--tint-strength), var(--tint-light)); }\n\
.tint-3 { background: hsl(280, var(--tint-strength), var(--tint-light)); }\n\
.tint-4 { background: hsl(50, var(--tint-strength), var(--tint-light)); }\n\
.tint-5 { background: hsl(330, var(--tint-strength), var(--tint-light)); }\n\
.tint-6 { background: hsl(180, var(--tint-strength), var(--tint-light)); }\n\
.tint-7 { background: hsl(90, var(--tint-strength), var(--tint-light)); }\n\
\n\
/* What is pointed at, its relatives, and what is pinned. */\n\
tr.is-far > * { background: var(--far); }\n\
tr.is-near > *, td.is-near { background: var(--near); }\n\
tr.is-self > * { background: var(--near); }\n\
tr.is-self > :first-child { box-shadow: inset .25rem 0 var(--accent); }\n\
.cell.is-self, .cell.is-near { outline: 2px solid var(--accent); outline-offset: -2px; }\n\
[aria-current] > :first-child { font-weight: 700; }\n\
.cell[aria-current] { font-weight: 700; }\n\
:focus-visible { outline: 2px solid var(--accent); outline-offset: -2px; }\n\
\n\
/* Samples. */\n\
.player {\n\
\x20 position: sticky;\n\
\x20 top: 0;\n\
\x20 z-index: 1;\n\
\x20 margin-top: 1.25rem;\n\
\x20 padding: .75rem 1rem;\n\
\x20 border: 1px solid var(--edge);\n\
\x20 border-radius: .5rem;\n\
\x20 background: var(--panel);\n\
}\n\
.player .line { display: flex; gap: .75rem; align-items: center; }\n\
.player input { flex: 1; min-width: 0; accent-color: var(--accent); }\n\
.said { display: flex; flex-wrap: wrap; gap: .1rem 1.5rem; margin-top: .3rem; }\n\
.said .number, .said .time { font-variant-numeric: tabular-nums; }\n\
.said .bytes { overflow-wrap: anywhere; }\n\
button {\n\
\x20 padding: .15rem .7rem;\n\
\x20 border: 1px solid var(--edge);\n\
\x20 border-radius: .35rem;\n\
\x20 background: var(--ground);\n\
\x20 color: inherit;\n\
\x20 font: inherit;\n\
\x20 cursor: pointer;\n\
}\n\
button:disabled { color: var(--pale); cursor: default; opacity: .6; }\n\
.jump { border: 0; padding: 0; background: none; color: var(--accent); }\n\
.plotted svg { display: block; cursor: crosshair; }\n\
.plotted .range { display: block; padding-left: 3px; font-size: .78rem; line-height: 1.2; }\n\
.curve { fill: none; stroke: var(--accent); stroke-width: 1.5; stroke-linejoin: round; }\n\
.now { stroke: var(--pale); stroke-width: 1; stroke-dasharray: 2 2; }\n\
.samples { font-size: .85rem; }\n\
.samples th, .samples td { padding-block: .1rem; }\n\
.samples .bytes { overflow-wrap: anywhere; }\n\
.all { margin-top: 1rem; }\n\
\n\
pre { overflow-x: auto; font-size: .85rem; line-height: 1.45; }\n\
footer { margin-top: 2rem; color: var(--pale); font-size: .8rem; }\n\
\n\
@media (min-width: 70rem) {\n\
\x20 .columns {\n\
\x20   gap: 2.5rem;\n\
\x20   grid-template-columns: minmax(0, 27rem) minmax(0, 1fr);\n\
\x20   align-items: start;\n\
\x20 }\n\
\x20 section.items { position: sticky; top: 1rem; max-height: calc(100vh - 2rem); overflow-y: auto; }\n\
\x20 .player ~ .columns section.items { top: 6.5rem; max-height: calc(100vh - 7.5rem); }\n\
\x20 section.items .wide { overflow: visible; }\n\
}\n\
\n\
@media (max-width: 45rem) {\n\
\x20 body { padding-top: 1rem; }\n\
\x20 .map { min-width: 0; }\n\
\x20 .map tr > th:first-child { width: 2.6rem; padding-inline: .1rem .4rem; }\n\
\x20 .cell { padding: .25rem .1rem; font-size: .68rem; }\n\
\x20 .cell .digits { font-size: .68rem; letter-spacing: 0; }\n\
\x20 .items td, .items th { padding-inline: .3rem; }\n\
\x20 .fields thead { display: none; }\n\
\x20 .fields tbody, .fields tr { display: block; }\n\
\x20 .fields .collection { display: block; padding-left: calc(var(--depth, 0) * .6rem); }\n\
\x20 .fields .field {\n\
\x20   display: grid;\n\
\x20   grid-template-columns: 5rem minmax(0, 1fr);\n\
\x20   padding-block: .3rem;\n\
\x20   border-bottom: 1px solid var(--edge);\n\
\x20 }\n\
\x20 .fields .field > * { grid-column: 2; border-bottom: 0; padding: 0 .3rem; }\n\
\x20 .fields .field > .bits { grid-column: 1; }\n\
\x20 .fields .field > .name { grid-row: 1; }\n\
\x20 .fields td:empty { display: none; }\n\
}\n\
\n\
@media print {\n\
\x20 :root {\n\
\x20   --ink: #000000;\n\
\x20   --pale: #333333;\n\
\x20   --ground: #ffffff;\n\
\x20   --panel: #ffffff;\n\
\x20   --edge: #777777;\n\
\x20   --near: #ffffff;\n\
\x20   --far: #ffffff;\n\
\x20   --main: #000000;\n\
\x20   --global: #000000;\n\
\x20   --local: #000000;\n\
\x20   --refused: #000000;\n\
\x20   --tint-light: 100%;\n\
\x20   color-scheme: light;\n\
\x20 }\n\
\x20 body { max-width: none; padding: 0; font-size: 10pt; }\n\
\x20 .columns { display: block; }\n\
\x20 .player { position: static; }\n\
\x20 .hint, .legend, .player .line { display: none; }\n\
\x20 section.items { position: static; max-height: none; overflow: visible; margin-bottom: 1.5rem; }\n\
\x20 .wide { overflow: visible; }\n\
\x20 .map { min-width: 0; }\n\
\x20 tr { break-inside: avoid; }\n\
\x20 thead { display: table-header-group; }\n\
}\n\
</style>\n\
</head>\n\
<body>\n\
<header id=\"head\">\n\
<p class=\"kind\">HID report descriptor</p>\n\
<h1>";

/// What stands between the heading and the items as text.
#[rattlefmt::skip]
pub const BEFORE_TEXT: &str = "\
</h1>\n\
</header>\n\
<noscript>\n\
<p>Without JavaScript this page shows the items of the descriptor alone.</p>\n\
<pre>";

/// What stands between the text and the blocks of JSON.
#[rattlefmt::skip]
pub const BEFORE_DATA: &str = "\
</pre>\n\
</noscript>\n\
<main id=\"main\"></main>\n\
<footer><p>Written by <code>hid page</code>. The page holds all that it shows, and asks for nothing\n\
else.</p></footer>\n\
";

/// What stands behind the blocks of JSON.
#[rattlefmt::skip]
pub const AFTER_DATA: &str = "\
<script>\n\
'use strict';\n\
\n\
// What the blocks of JSON say: the items, the reports with their fields, and the samples, which are\n\
// reports that came.\n\
\n\
// The types of an item, by its first byte.\n\
const MAIN = 0;\n\
const GLOBAL = 1;\n\
const LOCAL = 2;\n\
\n\
// The kinds that are told apart, by their tags.\n\
const OPENS = 0xa;\n\
const ENDS = 0xc;\n\
const USAGE_PAGE = 0;\n\
const LAST_USAGE = 2;\n\
const PUSH = 0xa;\n\
const POP = 0xb;\n\
\n\
// How many letters the digits of an item of four bytes have, as of a usage with its page.\n\
const OWN_PAGE = 14;\n\
\n\
// The block with an id.\n\
function block(id) {\n\
\x20 return JSON.parse(document.getElementById(id).textContent);\n\
}\n\
\n\
// The entries of the items: items, remarks, the fault, and bytes that are no item.\n\
function readItems() {\n\
\x20 const entries = block('items');\n\
\x20 for (const entry of entries) {\n\
\x20   entry.key = '';\n\
\x20   if (entry.item === undefined) continue;\n\
\x20   const header = parseInt(entry.bytes.slice(0, 2), 16);\n\
\x20   entry.key = 'item-' + entry.offset;\n\
\x20   entry.type = (header >> 2) & 3;\n\
\x20   entry.tag = header >> 4;\n\
\x20   entry.fields = [];\n\
\x20   entry.inForce = [];\n\
\x20   entry.usedBy = [];\n\
\x20 }\n\
\x20 return entries;\n\
}\n\
\n\
// The reports, each with its lines; the line of a field has all that is known of it.\n\
function readReports() {\n\
\x20 const objects = block('fields');\n\
\x20 const reports = [];\n\
\x20 let count = 0;\n\
\x20 for (const line of block('lines')) {\n\
\x20   if (line.title !== undefined) {\n\
\x20     reports.push(Object.assign({ lines: [], fields: [], samples: [] }, line));\n\
\x20     continue;\n\
\x20   }\n\
\x20   const report = reports[reports.length - 1];\n\
\x20   if (line.collection !== undefined) {\n\
\x20     report.lines.push(line);\n\
\x20     continue;\n\
\x20   }\n\
\x20   const field = Object.assign({ short: line.name, how: line.how, depth: line.depth },\n\
\x20     objects[count]);\n\
\x20   field.key = 'field-' + count;\n\
\x20   field.tint = count % 8;\n\
\x20   field.place = report.fields.length;\n\
\x20   field.maker = null;\n\
\x20   report.lines.push(field);\n\
\x20   report.fields.push(field);\n\
\x20   count += 1;\n\
\x20 }\n\
\x20 return reports;\n\
}\n\
\n\
// The samples, each with its number, its time and the one of the same report before it.\n\
function readSamples(reports) {\n\
\x20 const samples = block('samples');\n\
\x20 samples.forEach((sample, number) => {\n\
\x20   const own = reports[sample.report].samples;\n\
\x20   sample.number = number;\n\
\x20   sample.kind = reports[sample.report];\n\
\x20   sample.before = own.length === 0 ? null : own[own.length - 1];\n\
\x20   sample.seconds = sample.time === undefined ? NaN : Number(sample.time);\n\
\x20   own.push(sample);\n\
\x20 });\n\
\x20 return samples;\n\
}\n\
\n\
const facts = block('device');\n\
const device = facts[0];\n\
const fault = facts.length > 1 ? facts[1] : null;\n\
const notes = block('notes');\n\
const items = readItems();\n\
const reports = readReports();\n\
const samples = readSamples(reports);\n\
const entriesByKey = new Map();\n\
// Which items made which fields, and which were in force for them.\n\
\n\
// Gives each main item the fields that it made: those in its bits.\n\
function linkMade() {\n\
\x20 const byOffset = new Map();\n\
\x20 for (const item of items) if (item.key !== '') byOffset.set(item.offset, item);\n\
\x20 for (const made of block('made')) {\n\
\x20   const item = byOffset.get(made.offset);\n\
\x20   const report = reports.find((it) => it.direction === made.direction\n\
\x20     && it.report === made.report);\n\
\x20   if (item === undefined || report === undefined) continue;\n\
\x20   item.fields = report.fields.filter((field) => made.start <= field.start\n\
\x20     && field.end <= made.end);\n\
\x20   for (const field of item.fields) field.maker = item;\n\
\x20 }\n\
}\n\
\n\
// Goes over the items as a host does, and keeps which are in force: the last global of each tag,\n\
// the locals since the last main item, and the open collections.\n\
function linkInForce() {\n\
\x20 const state = { globals: new Map(), locals: [], pushed: [], open: [] };\n\
\x20 for (const item of items) {\n\
\x20   if (item.key === '') continue;\n\
\x20   if (item.type === LOCAL) passLocal(state, item);\n\
\x20   if (item.type === GLOBAL) passGlobal(state, item);\n\
\x20   if (item.type === MAIN) passMain(state, item);\n\
\x20 }\n\
}\n\
\n\
// A usage without a page of its own keeps, as hosts read, the page that it stands under in force.\n\
function passLocal(state, item) {\n\
\x20 state.locals.push(item);\n\
\x20 const page = state.globals.get(USAGE_PAGE);\n\
\x20 const isUsage = item.tag <= LAST_USAGE && item.bytes.length < OWN_PAGE;\n\
\x20 if (page !== undefined && isUsage && !device.by_standard) state.locals.push(page);\n\
}\n\
\n\
function passGlobal(state, item) {\n\
\x20 if (item.tag === PUSH) {\n\
\x20   state.pushed.push({ globals: new Map(state.globals), locals: state.locals.slice() });\n\
\x20 } else if (item.tag === POP) {\n\
\x20   const kept = state.pushed.pop();\n\
\x20   if (kept === undefined) return;\n\
\x20   state.globals = kept.globals;\n\
\x20   if (device.by_standard) state.locals = kept.locals;\n\
\x20 } else {\n\
\x20   state.globals.set(item.tag, item);\n\
\x20 }\n\
}\n\
\n\
// A list with each thing once.\n\
function each(list) {\n\
\x20 return Array.from(new Set(list));\n\
}\n\
\n\
function passMain(state, item) {\n\
\x20 if (item.tag === OPENS) {\n\
\x20   item.inForce = each(state.locals.concat(state.globals.get(USAGE_PAGE) || []));\n\
\x20   state.open.push(item);\n\
\x20 } else if (item.tag === ENDS) {\n\
\x20   const opened = state.open.pop();\n\
\x20   if (opened !== undefined) {\n\
\x20     item.inForce = [opened];\n\
\x20     item.fields = opened.fields;\n\
\x20   }\n\
\x20 } else {\n\
\x20   item.inForce = each(Array.from(state.globals.values()).concat(state.locals));\n\
\x20   for (const opened of state.open) opened.fields.push(...item.fields);\n\
\x20 }\n\
\x20 for (const other of item.inForce) other.usedBy.push(item);\n\
\x20 state.locals = [];\n\
}\n\
\n\
// What is shown with a part: its nearest relatives, and those further off.\n\
function relatives(part) {\n\
\x20 if (part.maker === null) return { near: [], far: [] };\n\
\x20 if (part.maker !== undefined) return { near: [part.maker], far: part.maker.inForce };\n\
\x20 if (part.type === MAIN) return { near: part.fields, far: part.inForce.concat(part.usedBy) };\n\
\x20 const fields = [];\n\
\x20 for (const user of part.usedBy) if (user.tag !== OPENS) fields.push(...user.fields);\n\
\x20 return { near: fields, far: part.usedBy };\n\
}\n\
\n\
linkMade();\n\
linkInForce();\n\
for (const item of items) if (item.key !== '') entriesByKey.set(item.key, item);\n\
for (const report of reports) {\n\
\x20 for (const field of report.fields) entriesByKey.set(field.key, field);\n\
}\n\
// Elements, and which of them show an item or a field: these are pointed at, and pinned.\n\
\n\
// An element with a class, or none, and what stands in it.\n\
function element(name, className, ...children) {\n\
\x20 const made = document.createElement(name);\n\
\x20 if (className !== '') made.className = className;\n\
\x20 made.append(...children);\n\
\x20 return made;\n\
}\n\
\n\
// A text of an input as it is shown: letters that can't be seen, or turn a line, are numbers.\n\
function plain(text) {\n\
\x20 return text.replace(/[\\0-\\x1f\\x7f-\\x9f\\u061c\\u200e\\u200f\\u2028-\\u202e\\u2066-\\u2069\\ufeff]/g,\n\
\x20   (letter) => '\\\\u{' + letter.charCodeAt(0).toString(16) + '}');\n\
}\n\
\n\
// A heading cell of a table.\n\
function heading(scope, className, ...children) {\n\
\x20 const made = element('th', className, ...children);\n\
\x20 made.scope = scope;\n\
\x20 return made;\n\
}\n\
\n\
// The row of a table's heads.\n\
function headRow(...names) {\n\
\x20 const row = element('tr', '');\n\
\x20 for (const name of names) row.append(heading('col', 'is-' + name.toLowerCase(), name));\n\
\x20 return element('thead', '', row);\n\
}\n\
\n\
// A table that scrolls by itself where it is too wide.\n\
function wide(table) {\n\
\x20 return element('div', 'wide', table);\n\
}\n\
\n\
// The elements that show an item or a field, by its key.\n\
const shownBy = new Map();\n\
\n\
function shows(made, part) {\n\
\x20 made.dataset.key = part.key;\n\
\x20 if (!shownBy.has(part.key)) shownBy.set(part.key, []);\n\
\x20 shownBy.get(part.key).push(made);\n\
}\n\
\n\
// The row in which an item or a field stands by itself: addresses end in its key.\n\
function ownRow(row, part) {\n\
\x20 row.id = part.key;\n\
\x20 shows(row, part);\n\
\x20 return row;\n\
}\n\
\n\
let pinned = '';\n\
let marked = [];\n\
\n\
function put(part, className) {\n\
\x20 for (const made of shownBy.get(part.key) || []) {\n\
\x20   made.classList.add(className);\n\
\x20   marked.push([made, className]);\n\
\x20 }\n\
}\n\
\n\
// Marks a part and its relatives; an empty key marks none.\n\
function mark(key) {\n\
\x20 for (const [made, className] of marked) made.classList.remove(className);\n\
\x20 marked = [];\n\
\x20 const part = entriesByKey.get(key);\n\
\x20 if (part === undefined) return;\n\
\x20 const { near, far } = relatives(part);\n\
\x20 for (const other of far) put(other, 'is-far');\n\
\x20 for (const other of near) put(other, 'is-near');\n\
\x20 put(part, 'is-self');\n\
}\n\
\n\
// Keeps a part marked, or none.\n\
function pin(key) {\n\
\x20 for (const made of shownBy.get(pinned) || []) made.removeAttribute('aria-current');\n\
\x20 pinned = entriesByKey.has(key) ? key : '';\n\
\x20 for (const made of shownBy.get(pinned) || []) made.setAttribute('aria-current', 'true');\n\
\x20 mark(pinned);\n\
\x20 bringRelative(pinned);\n\
}\n\
\n\
// Pins a part, or lets it go, and puts it into the page's address.\n\
function choose(key) {\n\
\x20 const next = key === pinned ? '' : key;\n\
\x20 history.replaceState(null, '', next === '' ? location.pathname + location.search : '#' + next);\n\
\x20 pin(next);\n\
}\n\
\n\
// The row in which a part stands by itself.\n\
function rowOf(key) {\n\
\x20 return (shownBy.get(key) || []).find((made) => made.tagName === 'TR');\n\
}\n\
\n\
// Brings the first relative of a part into sight, where it stands beside it.\n\
function bringRelative(key) {\n\
\x20 const part = entriesByKey.get(key);\n\
\x20 if (part === undefined || !window.matchMedia('(min-width: 70rem)').matches) return;\n\
\x20 const { near } = relatives(part);\n\
\x20 const row = near.length === 0 ? undefined : rowOf(near[0].key);\n\
\x20 if (row !== undefined) row.scrollIntoView({ block: 'nearest' });\n\
}\n\
\n\
function keyUnder(event) {\n\
\x20 const made = event.target instanceof Element ? event.target.closest('[data-key]') : null;\n\
\x20 return made === null ? '' : made.dataset.key;\n\
}\n\
\n\
// Goes to the row of the first relative: from an item to its field, and back.\n\
function goOver(key) {\n\
\x20 const { near } = relatives(entriesByKey.get(key));\n\
\x20 const row = near.length === 0 ? undefined : rowOf(near[0].key);\n\
\x20 if (row !== undefined) row.focus();\n\
}\n\
\n\
// The rows of a table by the arrow keys: one of them can be reached by the tab key.\n\
function walkRows(table) {\n\
\x20 const rows = Array.from(table.querySelectorAll('tr[data-key]'));\n\
\x20 rows.forEach((row, place) => { row.tabIndex = place === 0 ? 0 : -1; });\n\
\x20 table.addEventListener('focusin', (event) => {\n\
\x20   const row = event.target.closest('tr[data-key]');\n\
\x20   if (row === null) return;\n\
\x20   for (const other of rows) other.tabIndex = -1;\n\
\x20   row.tabIndex = 0;\n\
\x20 });\n\
\x20 table.addEventListener('keydown', (event) => {\n\
\x20   const place = rows.indexOf(event.target);\n\
\x20   if (place < 0 || event.ctrlKey || event.altKey || event.metaKey) return;\n\
\x20   const places = { ArrowUp: place - 1, ArrowDown: place + 1, Home: 0, End: rows.length - 1 };\n\
\x20   if (event.key in places) {\n\
\x20     const row = rows[places[event.key]];\n\
\x20     if (row !== undefined) row.focus();\n\
\x20   } else if (event.key === 'ArrowLeft' || event.key === 'ArrowRight') {\n\
\x20     goOver(rows[place].dataset.key);\n\
\x20   } else if (event.key === 'Enter' || event.key === ' ') {\n\
\x20     choose(rows[place].dataset.key);\n\
\x20   } else {\n\
\x20     return;\n\
\x20   }\n\
\x20   event.preventDefault();\n\
\x20 });\n\
}\n\
// The bits of a report, a row for each byte, bit 7 on the left; bytes that lie in one field are one\n\
// row.\n\
\n\
// The rows of a report: their bytes, and their cells from bit 7 on. A cell has no field where it is\n\
// the report's id or nothing.\n\
function rowsOf(report) {\n\
\x20 const rows = [];\n\
\x20 let cells = [];\n\
\x20 let bits = 0;\n\
\x20 let byte = 0;\n\
\x20 const addBytes = (field, count) => {\n\
\x20   rows.push({ first: byte, last: byte + count - 1, cells: [{ field, bits: 8 }] });\n\
\x20   byte += count;\n\
\x20 };\n\
\x20 const addBits = (field, count) => {\n\
\x20   cells.unshift({ field, bits: count });\n\
\x20   bits += count;\n\
\x20   if (bits < 8) return;\n\
\x20   rows.push({ first: byte, last: byte, cells });\n\
\x20   cells = [];\n\
\x20   bits = 0;\n\
\x20   byte += 1;\n\
\x20 };\n\
\x20 if (report.report !== null) addBytes(null, 1);\n\
\x20 for (const field of report.fields) {\n\
\x20   let left = field.end - field.start;\n\
\x20   const front = bits === 0 ? 0 : Math.min(left, 8 - bits);\n\
\x20   if (front > 0) addBits(field, front);\n\
\x20   left -= front;\n\
\x20   if (left >= 8) addBytes(field, Math.floor(left / 8));\n\
\x20   if (left % 8 > 0) addBits(field, left % 8);\n\
\x20 }\n\
\x20 if (bits > 0) addBits(null, 8 - bits);\n\
\x20 return rows;\n\
}\n\
\n\
// What stands in a cell: the field's name without its page.\n\
function cellName(report, row, cell) {\n\
\x20 if (cell.field === null) {\n\
\x20   return report.report !== null && row.first === 0 ? 'report ID' : '';\n\
\x20 }\n\
\x20 if (cell.field.kind === 'padding') return 'padding';\n\
\x20 return cell.bits < 4 ? cell.field.short.replace(/^Keyboard /, '') : cell.field.short;\n\
}\n\
\n\
// A text that may be cut between the words that are joined in it.\n\
function breakable(text) {\n\
\x20 const pieces = text.replace(/([a-z])(?=[A-Z0-9])/g, '$1\\n').split('\\n');\n\
\x20 const made = document.createDocumentFragment();\n\
\x20 pieces.forEach((piece, place) => {\n\
\x20   if (place > 0) made.append(element('wbr', ''));\n\
\x20   made.append(piece);\n\
\x20 });\n\
\x20 return made;\n\
}\n\
\n\
function cellOf(report, row, cell) {\n\
\x20 const name = cellName(report, row, cell);\n\
\x20 const kind = cell.field === null ? 'empty' : cell.field.kind;\n\
\x20 const made = element('td', 'cell ' + kind, element('span', 'name', breakable(name)));\n\
\x20 made.colSpan = cell.bits;\n\
\x20 if (cell.field === null) return made;\n\
\x20 if (kind !== 'padding') made.classList.add('tint-' + cell.field.tint);\n\
\x20 made.title = cell.field.name + ', ' + cell.field.how;\n\
\x20 shows(made, cell.field);\n\
\x20 return made;\n\
}\n\
\n\
// The map of a report; each cell in which bits are shown is put into `places`.\n\
function mapOf(report, places) {\n\
\x20 const table = element('table', 'map', element('caption', 'hidden', 'Bits of ' + report.title));\n\
\x20 const head = element('tr', '', heading('col', '', 'Byte'));\n\
\x20 for (let bit = 7; bit >= 0; bit -= 1) head.append(heading('col', '', String(bit)));\n\
\x20 const body = element('tbody', '');\n\
\x20 for (const row of rowsOf(report)) {\n\
\x20   const bytes = row.first === row.last ? String(row.first) : row.first + '\\u2013' + row.last;\n\
\x20   const made = element('tr', '', heading('row', '', bytes));\n\
\x20   let high = 8;\n\
\x20   for (const cell of row.cells) {\n\
\x20     const shown = cellOf(report, row, cell);\n\
\x20     high -= cell.bits;\n\
\x20     if (report.samples.length > 0) {\n\
\x20       const digits = element('span', 'digits');\n\
\x20       shown.append(digits);\n\
\x20       places.push({ row, low: high, bits: cell.bits, digits });\n\
\x20     }\n\
\x20     made.append(shown);\n\
\x20   }\n\
\x20   body.append(made);\n\
\x20 }\n\
\x20 table.append(element('thead', '', head), body);\n\
\x20 return wide(table);\n\
}\n\
\n\
// What the bytes of a sample have in a cell: bits of one byte, or several bytes in digits.\n\
function digitsIn(place, bytes) {\n\
\x20 const { row, low, bits } = place;\n\
\x20 if (row.last > row.first) {\n\
\x20   return bytes.slice(row.first, row.last + 1)\n\
\x20     .map((byte) => byte.toString(16).padStart(2, '0')).join(' ');\n\
\x20 }\n\
\x20 const byte = bytes[row.first];\n\
\x20 if (byte === undefined) return '';\n\
\x20 return ((byte >> low) & ((1 << bits) - 1)).toString(2).padStart(bits, '0');\n\
}\n\
// The reports with their collections and fields.\n\
\n\
function inHex(number) {\n\
\x20 return number.toString(16).padStart(8, '0').replace(/^(....)/, '$1:');\n\
}\n\
\n\
// The numbers of a field's usages, page and id.\n\
function usagesOf(field) {\n\
\x20 if (field.usage !== undefined) return inHex(field.usage);\n\
\x20 if (field.usage_range !== undefined) return field.usage_range.map(inHex).join('\\u2013\\u200b');\n\
\x20 if (field.usages === undefined) return '';\n\
\x20 return field.usages.length === 1 ? inHex(field.usages[0]) : field.usages.length + ' usages';\n\
}\n\
\n\
// A field's name, its page in pale letters; a long list of usages is folded.\n\
function nameOf(field) {\n\
\x20 const tail = ' / ' + field.short;\n\
\x20 if (field.kind === 'padding') return element('span', 'pale', 'padding');\n\
\x20 if (field.kind === 'variable' && field.name.endsWith(tail)) {\n\
\x20   const page = field.name.slice(0, -tail.length);\n\
\x20   return element('span', '', element('span', 'pale', page + ' / '), field.short);\n\
\x20 }\n\
\x20 if (field.name.length <= 160) return element('span', '', field.name);\n\
\x20 const summary = element('summary', '', field.name.slice(0, 120) + ' \\u2026');\n\
\x20 return element('details', '', summary, field.name);\n\
}\n\
\n\
// Gives an element the depth that its text is indented by; behind 16 the depth is a number.\n\
function indent(made, depth) {\n\
\x20 made.style.setProperty('--depth', String(Math.min(depth, 16)));\n\
\x20 if (depth > 16) made.prepend(element('span', 'pale', depth + '> '));\n\
}\n\
\n\
function collectionRow(line, columns) {\n\
\x20 const cell = heading('row', 'collection', line.collection);\n\
\x20 cell.colSpan = columns;\n\
\x20 indent(cell, line.depth);\n\
\x20 return element('tr', '', cell);\n\
}\n\
\n\
function fieldRow(field, hasSamples, places) {\n\
\x20 const name = heading('row', 'name', nameOf(field));\n\
\x20 indent(name, field.depth);\n\
\x20 const swatch = element('span', field.kind === 'padding' ? 'swatch padding'\n\
\x20   : 'swatch tint-' + field.tint);\n\
\x20 const bits = element('td', 'bits', swatch, field.start + '..' + field.end);\n\
\x20 const row = element('tr', 'field', bits, name, element('td', 'how', field.how));\n\
\x20 if (!hasSamples) {\n\
\x20   row.append(element('td', 'usage', usagesOf(field)));\n\
\x20 } else {\n\
\x20   name.title = usagesOf(field);\n\
\x20   const value = element('td', 'value');\n\
\x20   const plot = element('td', 'plot');\n\
\x20   row.append(value, plot);\n\
\x20   places.push({ field, value, plot });\n\
\x20 }\n\
\x20 return ownRow(row, field);\n\
}\n\
\n\
function sizeOf(report) {\n\
\x20 const plural = report.bytes === 1 ? '' : 's';\n\
\x20 return report.bits + ' bits, ' + report.bytes + ' byte' + plural;\n\
}\n\
\n\
// A report: its map and its fields, and the places in which a sample is shown.\n\
function sectionOf(report) {\n\
\x20 const places = { cells: [], fields: [] };\n\
\x20 const hasSamples = report.samples.length > 0;\n\
\x20 const names = ['Bits', 'Field', 'Reading'].concat(hasSamples ? ['Value', 'Plot'] : ['Usage']);\n\
\x20 const caption = element('caption', 'hidden', 'Fields of ' + report.title);\n\
\x20 const table = element('table', 'fields', caption, headRow(...names));\n\
\x20 const body = element('tbody', '');\n\
\x20 for (const line of report.lines) {\n\
\x20   body.append(line.collection === undefined ? fieldRow(line, hasSamples, places.fields)\n\
\x20     : collectionRow(line, names.length));\n\
\x20 }\n\
\x20 table.append(body);\n\
\x20 walkRows(table);\n\
\x20 const head = element('h3', '', report.title, ' ', element('span', 'pale', sizeOf(report)));\n\
\x20 const section = element('section', 'report', head, mapOf(report, places.cells), wide(table));\n\
\x20 return { report, section, places };\n\
}\n\
// The items of the descriptor.\n\
\n\
const TYPES = ['main', 'global', 'local', 'reserved'];\n\
\n\
function itemRow(item) {\n\
\x20 const words = element('td', 'words ' + TYPES[item.type], item.words);\n\
\x20 indent(words, item.depth);\n\
\x20 const row = element('tr', 'item', heading('row', 'offset', String(item.offset)),\n\
\x20   element('td', item.bytes.length > 14 ? 'bytes long' : 'bytes', item.bytes), words);\n\
\x20 return ownRow(row, item);\n\
}\n\
\n\
// The row of what is said of an item, of a fault, or of bytes that are no item.\n\
function otherRow(entry) {\n\
\x20 const offset = entry.offset === null ? '' : String(entry.offset);\n\
\x20 const row = element('tr', '', heading('row', 'offset', offset));\n\
\x20 if (entry.rest !== undefined) {\n\
\x20   const cell = element('td', 'bytes rest', entry.rest);\n\
\x20   cell.colSpan = 2;\n\
\x20   row.append(cell);\n\
\x20   return row;\n\
\x20 }\n\
\x20 const isFault = entry.fault !== undefined;\n\
\x20 const cell = element('td', isFault ? 'fault' : 'remark', isFault ? entry.fault : entry.remark);\n\
\x20 cell.colSpan = 2;\n\
\x20 row.append(cell);\n\
\x20 return row;\n\
}\n\
\n\
function itemsSection() {\n\
\x20 const table = element('table', 'items', element('caption', 'hidden', 'Items of the descriptor'),\n\
\x20   headRow('Offset', 'Bytes', 'Item'));\n\
\x20 const body = element('tbody', '');\n\
\x20 for (const entry of items) body.append(entry.key === '' ? otherRow(entry) : itemRow(entry));\n\
\x20 table.append(body);\n\
\x20 walkRows(table);\n\
\x20 const legend = element('span', 'legend');\n\
\x20 for (const type of TYPES.slice(0, 3)) legend.append(element('span', 'words ' + type, type), ' ');\n\
\x20 return element('section', 'items', element('h2', '', 'Items ', legend), wide(table));\n\
}\n\
// The samples: which one is shown, and its bits and values in the maps and fields.\n\
\n\
let shownReports = [];\n\
let moves = [];\n\
let player = null;\n\
let fillSamples = () => {};\n\
\n\
function bytesOf(sample) {\n\
\x20 return sample.bytes === '' ? [] : sample.bytes.split(' ').map((digits) => parseInt(digits, 16));\n\
}\n\
\n\
function timeOf(sample) {\n\
\x20 return sample.time === undefined ? '' : plain(sample.time);\n\
}\n\
\n\
// The last sample of a report up to a number.\n\
function latest(report, number) {\n\
\x20 let low = 0;\n\
\x20 let high = report.samples.length;\n\
\x20 while (low < high) {\n\
\x20   const middle = (low + high) >> 1;\n\
\x20   if (report.samples[middle].number <= number) low = middle + 1;\n\
\x20   else high = middle;\n\
\x20 }\n\
\x20 return low === 0 ? null : report.samples[low - 1];\n\
}\n\
\n\
// What a sample says of a field: what its numbers stand for, or else its number.\n\
function saidOf(sample, field) {\n\
\x20 const values = sample === null ? undefined : sample.values[field.place];\n\
\x20 if (values === undefined) return '';\n\
\x20 const words = sample.words[field.place];\n\
\x20 return words === '' && values.length === 1 ? String(values[0]) : words;\n\
}\n\
\n\
// Shows the bits and values of the last sample of a report up to a number.\n\
function showIn(shown, number) {\n\
\x20 const sample = latest(shown.report, number);\n\
\x20 const bytes = sample === null ? [] : bytesOf(sample);\n\
\x20 shown.section.classList.toggle('is-current', sample !== null && sample.number === number);\n\
\x20 for (const place of shown.places.cells) place.digits.textContent = digitsIn(place, bytes);\n\
\x20 for (const { field, value } of shown.places.fields) {\n\
\x20   const said = saidOf(sample, field);\n\
\x20   const before = sample === null || sample.before === null ? said\n\
\x20     : saidOf(sample.before, field);\n\
\x20   value.textContent = said;\n\
\x20   value.classList.toggle('is-changed', said !== before);\n\
\x20 }\n\
}\n\
\n\
// Shows a sample, by its number.\n\
function select(number) {\n\
\x20 const sample = samples[number];\n\
\x20 if (sample === undefined) return;\n\
\x20 for (const shown of shownReports) if (shown.report.samples.length > 0) showIn(shown, number);\n\
\x20 for (const move of moves) move(sample);\n\
\x20 player.slider.value = String(number + 1);\n\
\x20 player.slider.setAttribute('aria-valuetext', (number + 1) + ' of ' + samples.length);\n\
\x20 player.number.textContent = (number + 1) + ' of ' + samples.length;\n\
\x20 player.time.textContent = sample.time === undefined ? '' : timeOf(sample) + ' s';\n\
\x20 player.title.textContent = sample.kind.title;\n\
\x20 player.bytes.textContent = sample.bytes;\n\
\x20 player.back.disabled = number === 0;\n\
\x20 player.on.disabled = number + 1 === samples.length;\n\
}\n\
\n\
// Shows the sample that stands nearest in a plot.\n\
function selectNearest(x, across) {\n\
\x20 let best = samples[0];\n\
\x20 for (const sample of samples) {\n\
\x20   if (Math.abs(across(sample) - x) < Math.abs(across(best) - x)) best = sample;\n\
\x20 }\n\
\x20 select(best.number);\n\
}\n\
\n\
function button(text, label, step) {\n\
\x20 const made = element('button', '', text);\n\
\x20 made.type = 'button';\n\
\x20 made.setAttribute('aria-label', label);\n\
\x20 made.addEventListener('click', () => select(Number(player.slider.value) - 1 + step));\n\
\x20 return made;\n\
}\n\
\n\
// What chooses a sample: a slider and what it stands at.\n\
function playerSection() {\n\
\x20 const slider = element('input', '');\n\
\x20 slider.type = 'range';\n\
\x20 slider.min = '1';\n\
\x20 slider.max = String(samples.length);\n\
\x20 slider.setAttribute('aria-label', 'Report');\n\
\x20 slider.addEventListener('input', () => select(Number(slider.value) - 1));\n\
\x20 player = {\n\
\x20   slider,\n\
\x20   back: button('\\u25c0', 'The report before', -1),\n\
\x20   on: button('\\u25b6', 'The next report', 1),\n\
\x20   number: element('span', 'number'),\n\
\x20   time: element('span', 'time'),\n\
\x20   title: element('span', 'title'),\n\
\x20   bytes: element('code', 'bytes'),\n\
\x20 };\n\
\x20 const said = element('p', 'said', player.number, player.time, player.title, player.bytes);\n\
\x20 const line = element('div', 'line', player.back, slider, player.on);\n\
\x20 return element('section', 'player', element('h2', 'hidden', 'Reports over time'), line, said);\n\
}\n\
\n\
function sampleRow(sample) {\n\
\x20 const jump = element('button', 'jump', String(sample.number + 1));\n\
\x20 jump.type = 'button';\n\
\x20 jump.addEventListener('click', () => select(sample.number));\n\
\x20 return element('tr', '', heading('row', '', jump), element('td', 'time', timeOf(sample)),\n\
\x20   element('td', '', sample.kind.title), element('td', 'bytes', sample.bytes));\n\
}\n\
\n\
// All samples as a table, which is made when it is opened.\n\
function samplesSection() {\n\
\x20 const details = element('details', '', element('summary', '', 'Table of these '\n\
\x20   + counted(samples.length, 'report')));\n\
\x20 fillSamples = () => {\n\
\x20   if (details.querySelector('table') !== null) return;\n\
\x20   const table = element('table', 'samples', headRow('Number', 'Time', 'Report', 'Bytes'));\n\
\x20   const body = element('tbody', '');\n\
\x20   for (const sample of samples) body.append(sampleRow(sample));\n\
\x20   table.append(body);\n\
\x20   details.append(wide(table));\n\
\x20 };\n\
\x20 details.addEventListener('toggle', fillSamples);\n\
\x20 return element('section', 'all', element('h2', 'hidden', 'Table of reports'), details);\n\
}\n\
\n\
// Puts the plots into the fields, and shows the first sample.\n\
function beginSamples() {\n\
\x20 if (samples.length === 0) return;\n\
\x20 const across = scaleOf(samples);\n\
\x20 for (const shown of shownReports) {\n\
\x20   for (const { field, plot } of shown.places.fields) {\n\
\x20     const made = plotOf(field, shown.report, across, moves);\n\
\x20     if (made !== null) plot.append(made);\n\
\x20   }\n\
\x20 }\n\
\x20 select(0);\n\
}\n\
// A small plot of each value over time.\n\
\n\
const SVG = 'http://www.w3.org/2000/svg';\n\
const PLOT_WIDTH = 120;\n\
const PLOT_HEIGHT = 26;\n\
const PLOT_EDGE = 3;\n\
const MOST_POINTS = 480;\n\
\n\
function svg(name, attributes) {\n\
\x20 const made = document.createElementNS(SVG, name);\n\
\x20 for (const key of Object.keys(attributes)) made.setAttribute(key, String(attributes[key]));\n\
\x20 return made;\n\
}\n\
\n\
// Where a sample stands from left to right: by its time where all have one that doesn't go back,\n\
// else by its number.\n\
function scaleOf(all) {\n\
\x20 const isTimed = all.every((sample, place) => Number.isFinite(sample.seconds)\n\
\x20   && (place === 0 || all[place - 1].seconds <= sample.seconds));\n\
\x20 const at = isTimed ? (sample) => sample.seconds : (sample) => sample.number;\n\
\x20 const first = at(all[0]);\n\
\x20 const span = at(all[all.length - 1]) - first;\n\
\x20 const inner = PLOT_WIDTH - 2 * PLOT_EDGE;\n\
\x20 return (sample) => PLOT_EDGE + (span > 0 ? (at(sample) - first) / span * inner : inner / 2);\n\
}\n\
\n\
function valueIn(sample, field) {\n\
\x20 const values = sample.values[field.place];\n\
\x20 return values !== undefined && values.length === 1 ? values[0] : null;\n\
}\n\
\n\
// The points of a field: a value holds until the next. Where there are more than can be seen, those\n\
// of a column are its lowest and its highest.\n\
function pointsOf(field, kind, across) {\n\
\x20 let points = [];\n\
\x20 for (const sample of kind.samples) {\n\
\x20   const value = valueIn(sample, field);\n\
\x20   if (value !== null) points.push({ x: across(sample), value });\n\
\x20 }\n\
\x20 if (points.length > MOST_POINTS) {\n\
\x20   const columns = new Map();\n\
\x20   for (const point of points) {\n\
\x20     const column = Math.floor(point.x);\n\
\x20     const kept = columns.get(column);\n\
\x20     if (kept === undefined) columns.set(column, { low: point, high: point });\n\
\x20     else if (point.value < kept.low.value) kept.low = point;\n\
\x20     else if (point.value > kept.high.value) kept.high = point;\n\
\x20   }\n\
\x20   points = [];\n\
\x20   for (const { low, high } of columns.values()) {\n\
\x20     points.push(...(low === high ? [low] : low.x <= high.x ? [low, high] : [high, low]));\n\
\x20   }\n\
\x20 }\n\
\x20 return points;\n\
}\n\
\n\
// The plot of a field, or nothing where there is no value or only one sample; the mark in it goes\n\
// to a sample by `moves`.\n\
function plotOf(field, kind, across, moves) {\n\
\x20 const points = kind.samples.length < 2 || field.kind !== 'variable' ? []\n\
\x20   : pointsOf(field, kind, across);\n\
\x20 if (points.length < 2) return null;\n\
\x20 let low = points[0].value;\n\
\x20 let high = low;\n\
\x20 for (const point of points) {\n\
\x20   low = Math.min(low, point.value);\n\
\x20   high = Math.max(high, point.value);\n\
\x20 }\n\
\x20 const inner = PLOT_HEIGHT - 2 * PLOT_EDGE;\n\
\x20 const down = (value) => PLOT_EDGE + (high > low ? (high - value) / (high - low) * inner\n\
\x20   : inner / 2);\n\
\x20 const corners = [];\n\
\x20 points.forEach((point, place) => {\n\
\x20   if (place > 0) corners.push([point.x, down(points[place - 1].value)]);\n\
\x20   corners.push([point.x, down(point.value)]);\n\
\x20 });\n\
\x20 corners.push([PLOT_WIDTH - PLOT_EDGE, corners[corners.length - 1][1]]);\n\
\x20 const drawn = svg('svg', {\n\
\x20   viewBox: '0 0 ' + PLOT_WIDTH + ' ' + PLOT_HEIGHT,\n\
\x20   width: PLOT_WIDTH,\n\
\x20   height: PLOT_HEIGHT,\n\
\x20   role: 'img',\n\
\x20   'aria-label': field.short + ' over time, ' + low + ' to ' + high,\n\
\x20 });\n\
\x20 const line = svg('line', { class: 'now', y1: 0, y2: PLOT_HEIGHT });\n\
\x20 const curve = svg('polyline', {\n\
\x20   class: 'curve',\n\
\x20   points: corners.map(([x, y]) => x.toFixed(1) + ',' + y.toFixed(1)).join(' '),\n\
\x20 });\n\
\x20 drawn.append(line, curve);\n\
\x20 moves.push((sample) => {\n\
\x20   const x = across(sample).toFixed(1);\n\
\x20   line.setAttribute('x1', x);\n\
\x20   line.setAttribute('x2', x);\n\
\x20 });\n\
\x20 drawn.addEventListener('click', (event) => {\n\
\x20   event.stopPropagation();\n\
\x20   const box = drawn.getBoundingClientRect();\n\
\x20   const x = (event.clientX - box.left) / box.width * PLOT_WIDTH;\n\
\x20   selectNearest(x, across);\n\
\x20 });\n\
\x20 const range = high > low ? low + ' to ' + high : 'always ' + low;\n\
\x20 return element('div', 'plotted', drawn, element('span', 'pale range', range));\n\
}\n\
// The page from its parts, and what it does when it is pointed at.\n\
\n\
function counted(count, word) {\n\
\x20 return count + ' ' + word + (count === 1 ? '' : 's');\n\
}\n\
\n\
// What is said of the input, a term and its words each. What may be left out is not counted.\n\
function factsOf() {\n\
\x20 const shown = [['Input', plain(device.file) + ', ' + device.form]];\n\
\x20 if (device.ids !== null) shown.push(['Bus, vendor, product', plain(device.ids)]);\n\
\x20 shown.push(['Descriptor', counted(device.bytes, 'byte')]);\n\
\x20 for (const direction of ['input', 'output', 'feature']) {\n\
\x20   const own = reports.filter((report) => report.direction === direction);\n\
\x20   if (own.length === 0) continue;\n\
\x20   const term = direction[0].toUpperCase() + direction.slice(1) + ' reports';\n\
\x20   shown.push([term, own.length === 1 ? '1, of ' + counted(own[0].bytes, 'byte')\n\
\x20     : String(own.length)]);\n\
\x20 }\n\
\x20 return shown;\n\
}\n\
\n\
// What has to be known of how the descriptor was read.\n\
function readings() {\n\
\x20 const said = [];\n\
\x20 if (device.by_standard) said.push('Read by the letter of the standard, not as Linux reads it.');\n\
\x20 return said.concat(notes.map((note) => plain(note.note)));\n\
}\n\
\n\
function fillHead() {\n\
\x20 const head = document.getElementById('head');\n\
\x20 const list = element('dl', 'facts');\n\
\x20 for (const [term, words] of factsOf()) {\n\
\x20   list.append(element('div', '', element('dt', '', term), element('dd', '', words)));\n\
\x20 }\n\
\x20 head.append(list);\n\
\x20 if (fault !== null) {\n\
\x20   const where = fault.offset === null ? '' : ' at offset ' + fault.offset;\n\
\x20   head.append(element('p', 'refusal', element('strong', '', 'Refused' + where + ': '),\n\
\x20     fault.fault));\n\
\x20 }\n\
\x20 for (const said of readings()) head.append(element('p', 'note', said));\n\
\x20 head.append(element('p', 'hint', 'Point at an item, a field or its bits to see what belongs'\n\
\x20   + ' together; click to keep it in sight.'));\n\
}\n\
\n\
function fillMain() {\n\
\x20 shownReports = reports.map(sectionOf);\n\
\x20 const sections = shownReports.map((shown) => shown.section);\n\
\x20 const right = element('section', 'reports', element('h2', '', 'Reports'), ...sections);\n\
\x20 if (reports.length === 0) right.append(element('p', 'note', fault === null\n\
\x20   ? 'The descriptor has no report.' : 'A descriptor that is refused has no reports.'));\n\
\x20 const main = document.getElementById('main');\n\
\x20 if (samples.length > 0) main.append(playerSection());\n\
\x20 main.append(element('div', 'columns', itemsSection(), right));\n\
\x20 if (samples.length > 0) main.append(samplesSection());\n\
}\n\
\n\
fillHead();\n\
fillMain();\n\
beginSamples();\n\
\n\
document.addEventListener('mouseover', (event) => mark(keyUnder(event) || pinned));\n\
document.addEventListener('focusin', (event) => mark(keyUnder(event) || pinned));\n\
document.addEventListener('focusout', () => mark(pinned));\n\
document.addEventListener('click', (event) => {\n\
\x20 const key = keyUnder(event);\n\
\x20 if (key !== '' && String(window.getSelection()) === '') choose(key);\n\
});\n\
document.addEventListener('keydown', (event) => {\n\
\x20 if (event.key === 'Escape' && pinned !== '') choose(pinned);\n\
});\n\
window.addEventListener('hashchange', () => pin(location.hash.slice(1)));\n\
window.addEventListener('beforeprint', () => {\n\
\x20 fillSamples();\n\
\x20 for (const details of document.querySelectorAll('details')) details.open = true;\n\
});\n\
pin(location.hash.slice(1));\n\
const first = rowOf(pinned);\n\
if (first !== undefined) first.scrollIntoView({ block: 'center' });\n\
</script>\n\
</body>\n\
</html>\n\
";
