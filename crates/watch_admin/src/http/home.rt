//! The page for people: a script in it reads the numbers and the configuration every two seconds.

/// The page.
pub fn home_text() -> &'static str {
    r##"<!DOCTYPE html>
<html lang="en">
<head>
<meta charset="utf-8">
<meta name="viewport" content="width=device-width">
<title>mcgate</title>
<style>
body { font: 15px/1.45 system-ui, sans-serif; margin: 1.5em auto; max-width: 72em; padding: 0 1em; color: #222; background: #fff }
h1 { font-size: 1.4em } h1 small { font-weight: normal; color: #666; font-size: .65em } h2 { font-size: 1.05em; margin: 1.6em 0 .4em } h2 small { font-weight: normal; color: #666 }
table { border-collapse: collapse; width: 100% } th, td { text-align: right; padding: .25em .7em; border-bottom: 1px solid #ddd }
th { color: #666; font-weight: normal } th:first-child, td:first-child { text-align: left } td { font-variant-numeric: tabular-nums }
.up { color: #17722f } .late, .warn { color: #9a6200; font-weight: bold } .down, .unknown { color: #b3261e; font-weight: bold } .unused { color: #777 }
#told p { margin: .2em 0; padding: .3em .7em; border-left: 4px solid #b3261e; background: #fbeceb }
#tree { overflow-x: auto } .node, .way { display: flex; align-items: center } .ways { position: relative; margin-left: 1.5em }
.box { border: 1px solid #aaa; border-radius: 4px; padding: .15em .6em; white-space: nowrap } .box b { font-weight: 600 }
.way { position: relative; padding: .2em 0 .2em 1.2em } .way i { color: #666; font-style: normal; padding: 0 .5em; background: #fff; z-index: 1; white-space: nowrap }
.ways::before { content: ""; position: absolute; left: -1.5em; width: 1.5em; top: 50%; border-top: 1px solid #aaa }
.way::before { content: ""; position: absolute; left: 0; top: 0; bottom: 0; border-left: 1px solid #aaa }
.way:first-child::before { top: 50% } .way:last-child::before { bottom: 50% }
.way::after { content: ""; position: absolute; left: 0; width: 1.7em; top: 50%; border-top: 1px solid #aaa }
.way i::after { content: ""; display: inline-block; vertical-align: middle; width: 1em; margin: 0 -.5em 0 .5em; border-top: 1px solid #aaa }
</style>
</head>
<body>
<h1>mcgate <small id="about">no numbers yet</small></h1>
<div id="told"></div>
<h2>Servers</h2>
<table id="servers"></table>
<h2>Commands <small id="took"></small></h2>
<table id="commands"></table>
<h2>Clients and configurations</h2>
<table id="others"></table>
<h2>Tree <small><span id="sum"></span>, <a href="config.json">its text</a></small></h2>
<div id="tree"></div>
<script>
"use strict";
const EVERY = 2000, MOST = 16, WORST = ["unknown", "down", "late", "unused", "up"];
let before = null, drawn = null, leaves = [];
const at = id => document.getElementById(id);

function made(kind, text, style) {
  const it = document.createElement(kind);
  if (text !== undefined) it.textContent = text;
  if (style) it.className = style;
  return it;
}

// Each row is a list of cells: a text, or a text and its style.
function fill(id, names, rows) {
  const table = at(id), head = made("tr");
  names.forEach(name => head.append(made("th", name)));
  const body = rows.map(row => {
    const line = made("tr");
    row.forEach(cell => line.append(Array.isArray(cell) ? made("td", cell[0], cell[1]) : made("td", cell)));
    return line;
  });
  table.replaceChildren(head, ...body);
}

const has = (row, labels) => Object.keys(labels).every(name => row[name] === labels[name]);
const sum = (rows, labels) => (rows || []).reduce((all, row) => has(row, labels) ? all + row.value : all, 0);
const number = value => Math.round(value).toLocaleString("en");
const bytes = value => value < 1e3 ? number(value) + " B" : value < 1e6 ? number(value / 1e3) + " kB" : number(value / 1e6) + " MB";
const time = seconds => seconds === null ? "" : seconds < 1 ? (seconds * 1e3).toPrecision(2) + " ms" : seconds.toPrecision(2) + " s";

// How much a count has grown in a second; before the second reading, since the start.
function rate(now, then, seconds) { return seconds > 0 ? Math.max(0, now - then) / seconds : 0; }

// The time that this part of the answers took no longer than, by the buckets.
function most(buckets, part) {
  const all = buckets.length ? buckets[buckets.length - 1].value : 0;
  if (all === 0) return null;
  const found = buckets.find(bucket => bucket.value >= all * part);
  return found.le === "+Inf" ? Infinity : Number(found.le);
}

function state(now, server) {
  if (sum(now.mcgate_server_late, {server})) return "late";
  if (sum(now.mcgate_server_up, {server})) return "up";
  if (sum(now.mcgate_server_unknown, {server})) return "unknown";
  return sum(now.mcgate_server_connections_total, {server}) + sum(now.mcgate_server_failures_total, {server}) ? "down" : "unused";
}

function spans(now, then, name, labels) {
  const of = it => (it[name] || {le: []}).le.filter(row => has(row, labels));
  const old = of(then);
  return of(now).map((row, place) => ({le: row.le, value: row.value - (old[place] ? old[place].value : 0)}));
}

function answers(buckets) {
  const told = part => { const it = most(buckets, part); return it === null ? "" : it === Infinity ? "> 1 s" : "≤ " + time(it); };
  return [told(0.5), told(0.99)];
}

function causes(rows, labels) {
  return (rows || []).filter(row => has(row, labels) && row.value > 0)
    .map(row => row.cause.replace(/_/g, " ") + " " + number(row.value)).join(", ");
}

function serverRow(now, then, seconds, server) {
  const how = state(now, server);
  const grown = outcome => rate(sum(now.mcgate_server_calls_total, {server, outcome}), sum(then.mcgate_server_calls_total, {server, outcome}), seconds);
  const failed = grown("failed") + grown("unsent");
  const wrong = rate(sum(now.mcgate_server_error_answers_total, {server}), sum(then.mcgate_server_error_answers_total, {server}), seconds);
  return [server, [how, how], number(grown("answered")), [number(wrong), wrong ? "warn" : ""], [number(failed), failed ? "down" : ""], ...answers(spans(now, then, "mcgate_server_call_seconds", {server})),
    number(sum(now.mcgate_server_calls_out, {server})), causes(now.mcgate_server_failures_total, {server})];
}

function commandRow(now, then, seconds, op) {
  const grown = reply => rate(sum(now.mcgate_commands_total, {op, reply}), sum(then.mcgate_commands_total, {op, reply}), seconds);
  const all = ["item", "acknowledged", "error", "other"].reduce((total, kind) => total + grown(kind), 0);
  const failed = grown("error"), others = grown("other");
  return [op, number(all), number(grown("item")), op === "delete" ? number(grown("acknowledged")) : "", [number(failed), failed ? "down" : ""],
    [number(others), op === "delete" && others ? "down" : ""], number(sum(now.mcgate_commands_total, {op}))];
}

function tell(now) {
  const told = [];
  const refused = sum(now.mcgate_reloads_total, {verdict: "refused"});
  const lost = ["error", "other"].reduce((all, reply) => all + sum(now.mcgate_commands_total, {op: "delete", reply}), 0);
  if (refused) told.push("Texts of its file that were refused: " + number(refused) + ". What is in use may not be what the file says.");
  now.mcgate_config_last_refused.forEach(row => told.push("The last one, at " + new Date(row.value * 1e3).toLocaleString() + ": " + row.line));
  if (lost) told.push("Deletes that weren't acknowledged: " + number(lost) + ".");
  const unknown = now.mcgate_server_unknown.filter(row => row.value).map(row => row.server);
  const many = sum(now.mcgate_client_connections_total, {verdict: "refused"});
  if (unknown.length) told.push("Names that lead to no machine: " + unknown.join(", ") + ". Calls to these servers fail at once.");
  if (many) told.push("Clients refused, as there were too many: " + number(many) + ".");
  const bad = now.mcgate_bad_messages_total;
  if (bad) told.push("Messages that were no valid commands: " + number(bad) + ".");
  const slow = ["stalled", "most_held"].reduce((all, cause) => all + sum(now.mcgate_clients_closed_total, {cause}), 0);
  if (slow) told.push("Clients closed, as they took too little: " + number(slow) + ".");
  const unaccepted = now.mcgate_accept_failures_total;
  if (unaccepted) told.push("Connections could not be accepted, " + number(unaccepted) + " times: too many descriptors were open, or no memory was left.");
  at("told").replaceChildren(...told.map(text => made("p", text)));
}

function show(now, then, seconds) {
  const built = now.mcgate_build_info[0];
  at("about").textContent = "version " + built.version + (built.proved === "true" ? ", proved" : ", not proved") + ", up " + number(now.mcgate_uptime_seconds) + " s, "
    + bytes(now.mcgate_resident_memory_bytes) + " in use, " + Math.round(100 * rate(now.mcgate_cpu_seconds_total, then.mcgate_cpu_seconds_total || 0, seconds)) + " % of a processor";
  at("sum").textContent = "SHA-256 " + now.mcgate_config_info[0].sha256;
  tell(now);
  fill("servers", ["server", "state", "answers/s", "errors/s", "failed/s", "half took", "99 % took", "calls out", "failures so far"],
    now.mcgate_server_up.map(row => serverRow(now, then, seconds, row.server)));
  const ops = [...new Set(now.mcgate_commands_total.map(row => row.op))].filter(op => sum(now.mcgate_commands_total, {op}));
  fill("commands", ["command", "per second", "with an item", "acknowledged", "errors", "others", "so far"], ops.map(op => commandRow(now, then, seconds, op)));
  const [half, mostly] = answers(spans(now, then, "mcgate_command_seconds", {}));
  at("took").textContent = half ? "half took " + half + ", 99 % " + mostly : "";
  const moved = direction => rate(sum(now.mcgate_client_bytes_total, {direction}), sum(then.mcgate_client_bytes_total, {direction}), seconds);
  const came = verdict => number(sum(now.mcgate_client_connections_total, {verdict}));
  const loads = verdict => number(sum(now.mcgate_reloads_total, {verdict}));
  fill("others", ["clients now", "accepted", "refused", "gone", "read", "sent", "generation", "loaded", "unchanged", "refused"], [[number(now.mcgate_clients), came("accepted"),
    came("refused"), causes(now.mcgate_clients_closed_total, {}), bytes(moved("in")) + "/s", bytes(moved("out")) + "/s", number(now.mcgate_generation), loads("accepted"), loads("unchanged"), loads("refused")]]);
}

// Servers as lines of a box, which are marked with each look; of many the first ones, and the others in one line.
function lines(texts) {
  const parts = texts.slice(0, MOST).map(text => [text]);
  if (texts.length > MOST) parts.push(texts.slice(MOST));
  return parts.map(part => {
    const line = made("div", part.length === 1 ? part[0] + " " : number(part.length) + " more "), how = made("span");
    line.append(how);
    leaves.push({texts: part, how});
    return line;
  });
}

// A box of the picture: its name, its servers, and the ways on from it, each a word and a box.
function box(name, texts, ways) {
  const node = made("div", undefined, "node"), itself = made("div", undefined, "box"), on = made("div", undefined, "ways");
  itself.append(made("b", name), ...lines(texts));
  node.append(itself);
  ways.forEach(([word, next]) => {
    const way = made("div", undefined, "way");
    way.append(made("i", word), next);
    on.append(way);
  });
  if (ways.length) node.append(on);
  return node;
}

// A text before its first bar, and after it.
function cut(text) {
  const bar = text.indexOf("|");
  return bar < 0 ? [text, undefined] : [text.slice(0, bar), text.slice(bar + 1)];
}

function route(part, pools) {
  if (typeof part === "string") {
    const [type, rest] = cut(part);
    part = type === "PoolRoute" ? {type, pool: rest} : {type, children: rest};
  }
  if (part.type === "PoolRoute") return box("PoolRoute " + part.pool, pools[part.pool].servers, []);
  if (typeof part.children === "string") {
    const name = cut(part.children)[1];
    return box(part.type, [], [["each", box("server of " + name, pools[name].servers, [])]]);
  }
  const ways = (part.children || []).map((next, place) => [String(place + 1), next]);
  if (part.type === "WarmUpRoute") ways.push(["cold", part.cold], ["warm", part.warm]);
  Object.entries(part.operation_policies || {}).forEach(way => ways.push(way));
  if (part.type === "OperationSelectorRoute") ways.push(["default", part.default_policy || "ErrorRoute"]);
  Object.entries(part.policies || {}).forEach(([prefix, next]) => ways.push(["prefix " + prefix, next]));
  if (part.type === "PrefixSelectorRoute") ways.push(["wildcard", part.wildcard || "ErrorRoute"]);
  return box(part.type, [], ways.map(([word, next]) => [word, route(next, pools)]));
}

async function draw(generation) {
  if (generation === drawn) return;
  const config = await (await fetch("config.json")).json();
  leaves = [];
  at("tree").replaceChildren(route(config.route, config.pools));
  drawn = generation;
}

// Tells the states of the servers in the picture, by their names. (a text may have a weight behind its name)
function mark(states) {
  leaves.forEach(({texts, how}) => {
    const all = texts.map(text => states.get(text) || states.get(text.replace(/:[0-9]+$/, "")) || "");
    const found = WORST.filter(word => all.includes(word));
    how.textContent = texts.length === 1 ? all[0] : found.map(word => number(all.filter(one => one === word).length) + " " + word).join(", ");
    how.className = found[0] || "";
  });
}

async function look() {
  try {
    const now = await (await fetch("stats.json")).json();
    const seconds = before ? now.mcgate_uptime_seconds - before.mcgate_uptime_seconds : now.mcgate_uptime_seconds;
    show(now, before || {}, seconds);
    before = now;
    await draw(now.mcgate_generation);
    mark(new Map(now.mcgate_server_up.map(row => [row.server, state(now, row.server)])));
  } catch (fault) {
    at("about").textContent = "it doesn't answer: " + fault.message;
  }
  setTimeout(look, EVERY);
}
look();
</script>
</body>
</html>
"##
}
