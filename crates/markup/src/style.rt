//! The style of all pages.
ghost use Rattle.std.specs.Prelude.{◌≡◌, ◌++◌, OnOk};
ghost use Rattle.markup.specs.Style as spec_style;

use plc_base::OctetRef;
use std::alloc::AllocError;

fn rule<'a>(text: &'a str) -> OctetRef<'a>
    ensures { result ≡ text.now }
{
    OctetRef::new(text.as_bytes())
}

fn push_rule(out: &mut Vec<u8>, rule: &OctetRef<'_>) -> Result<(), AllocError>
    ensures { OnOk result (out.new.items ≡ out.old.items ++ rule.now) }
{
    out.extend_from_slice(rule.octets())
}

fn push_rules(out: &mut Vec<u8>, rules: &[OctetRef<'_>]) -> Result<(), AllocError>
    ensures { OnOk result (out.new.items ≡ out.old.items ++ spec_style.rules_text rules.now) }
{
    for rule in rules {
        push_rule(out, rule)?;
    }
    Ok(())
}

// The colours, light and dark.
#[tactic(auto, unfolding(crate::specs::Style::colour_text))]
fn push_colour_rules(out: &mut Vec<u8>) -> Result<(), AllocError>
    ensures { OnOk result (out.new.items ≡ out.old.items ++ spec_style.colour_text) }
{
    push_rules(
        out,
        &[
            rule(
                ":root{color-scheme:light dark;--ink:#1c2733;--dim:#64707d;--line:#d9dfe6;--soft:#eef1f4;--bg:#f5f7f9;--card:#fff;--ok:#1f7a4d;",
            ),
            rule(
                "--blue:#2563a8;--no:#b45a06;--bad:#c21d2e;--grey:#98a4b0;--note:#fdfbf2;--hint:#75662b;--life:#9cc3e6;--life1:#c3a6e8;--out:#b9c3cd}",
            ),
            rule(
                "@media (prefers-color-scheme:dark){:root{--ink:#e4e9ee;--dim:#9aa6b2;--line:#37424d;--soft:#27313b;--bg:#12181e;--card:#1a222a;--ok:#4cbb83;",
            ),
            rule(
                "--blue:#6ca8ea;--no:#e8964a;--bad:#f0707c;--grey:#7c8894;--note:#25231a;--hint:#d3c07c;--life:#3f6d94;--life1:#7a5aa6;--out:#55616d}}",
            ),
        ],
    )
}

// The page, its tiles and its stories.
#[tactic(auto, unfolding(crate::specs::Style::layout_text))]
fn push_layout_rules(out: &mut Vec<u8>) -> Result<(), AllocError>
    ensures { OnOk result (out.new.items ≡ out.old.items ++ spec_style.layout_text) }
{
    push_rules(
        out,
        &[
            rule("*{box-sizing:border-box}"),
            rule(
                "body{margin:0;background:var(--bg);color:var(--ink);font:14px/1.45 system-ui,\"Segoe UI\",Roboto,\"DejaVu Sans\",sans-serif}",
            ),
            rule(
                "main{max-width:1500px;margin:0 auto;padding:18px 22px 40px}h1{font-size:21px;margin:0 0 2px}h2{font-size:16px;margin:26px 0 8px}",
            ),
            rule(
                ".sub{color:var(--dim);margin:0 0 12px}.tiles{display:flex;flex-wrap:wrap;gap:10px}",
            ),
            rule(
                ".tile{background:var(--card);border:1px solid var(--line);border-radius:8px;padding:8px 14px;min-width:118px}",
            ),
            rule(
                ".tile b{display:block;font-size:20px;font-variant-numeric:tabular-nums}.tile span{color:var(--dim);font-size:12px}.tile.g b{color:var(--ok)}",
            ),
            rule(
                ".tile.r b{color:var(--bad)}.card{background:var(--card);border:1px solid var(--line);border-radius:8px;padding:10px 12px;overflow:auto}",
            ),
            rule(
                ".band{background:var(--card);border:1px solid var(--bad);color:var(--bad);border-radius:6px;padding:6px 12px;margin:10px 0}",
            ),
            rule(
                "details{background:var(--card);border:1px solid var(--line);border-left:4px solid var(--grey);border-radius:6px;margin:5px 0}",
            ),
            rule(
                "details.g{border-left-color:var(--ok)}details.b{border-left-color:var(--bad)}summary{cursor:pointer;padding:5px 10px}",
            ),
            rule(
                "summary .n{color:var(--dim);font-size:12px;font-variant-numeric:tabular-nums;display:inline-block;min-width:11.5em}",
            ),
            rule(
                "summary .t{font-weight:600;margin-right:10px}.g>summary .v{color:var(--ok)}.b>summary .v{color:var(--bad)}",
            ),
            rule(
                "@media (max-width:700px){main{padding:12px 10px 30px}.m ol{min-width:300px}.m li{height:26px}summary .n{min-width:0;margin-right:8px}}",
            ),
        ],
    )
}

// The reasons of what failed, and the story that a link leads to.
#[tactic(auto, unfolding(crate::specs::Style::reason_text))]
fn push_reason_rules(out: &mut Vec<u8>) -> Result<(), AllocError>
    ensures { OnOk result (out.new.items ≡ out.old.items ++ spec_style.reason_text) }
{
    push_rules(
        out,
        &[
            rule(
                "h3{font-size:14px;margin:4px 0}.why{list-style:none;margin:0 0 8px;padding:0}.why li{padding-left:3.8em;text-indent:-3.8em}",
            ),
            rule(
                ".why b{display:inline-block;min-width:3em;text-align:right;text-indent:0}.why .t{font-weight:600;margin:0 12px 0 10px}",
            ),
            rule(
                ".why a{white-space:nowrap}a{color:var(--blue)}details:target{outline:3px solid var(--blue)}",
            ),
        ],
    )
}

// All that is not drawn.
#[tactic(auto, unfolding(crate::specs::Style::content_text))]
fn push_content_rules(out: &mut Vec<u8>) -> Result<(), AllocError>
    ensures { OnOk result (out.new.items ≡ out.old.items ++ spec_style.content_text) }
{
    push_layout_rules(out)?;
    push_reason_rules(out)
}

// The charts, their sentences and the words of answers.
#[tactic(auto, unfolding(crate::specs::Style::chart_text))]
fn push_chart_rules(out: &mut Vec<u8>) -> Result<(), AllocError>
    ensures { OnOk result (out.new.items ≡ out.old.items ++ spec_style.chart_text) }
{
    push_rules(
        out,
        &[
            rule(
                ".m{display:flex;padding:0 6px 8px;overflow-x:auto}.m>svg{flex:none}.m ol{list-style:none;margin:34px 0 0;padding:0;flex:1;min-width:420px}",
            ),
            rule(
                ".m li{height:26px;line-height:26px;white-space:nowrap;overflow:hidden;text-overflow:ellipsis;font-size:12.5px;",
            ),
            rule(
                "border-top:1px solid var(--soft);padding-left:6px}.m li:hover{background:var(--soft)}",
            ),
            rule(
                ".m li.cm{color:var(--hint);font-style:italic;background:var(--note)}.late{color:var(--no)}",
            ),
            rule(
                ".p{font-size:11px;border-radius:8px;padding:1px 7px;margin-right:6px;color:var(--card);background:var(--blue)}.p.up{background:var(--ok)}",
            ),
            rule(
                ".p.no{background:var(--no)}.p.f{background:var(--bad)}.p.q{background:var(--grey)}",
            ),
        ],
    )
}

// What is drawn in charts and lanes.
#[tactic(auto, unfolding(crate::specs::Style::drawing_text))]
fn push_drawing_rules(out: &mut Vec<u8>) -> Result<(), AllocError>
    ensures { OnOk result (out.new.items ≡ out.old.items ++ spec_style.drawing_text) }
{
    push_rules(
        out,
        &[
            rule(
                "svg{display:block}svg text{font:11px system-ui,\"DejaVu Sans\",sans-serif;fill:var(--ink)}svg .hd{font-weight:600}",
            ),
            rule(
                "svg .c{font-size:10px;fill:var(--dim)}svg .l{font-size:10px}.L{stroke:var(--out);stroke-width:3;fill:none}",
            ),
            rule(
                ".L.none{stroke:var(--line);stroke-dasharray:2 4}.L.out{stroke-dasharray:2 4}.L.k0{stroke:var(--life)}",
            ),
            rule(".L.k1{stroke:var(--life1)}.L.halt{stroke:var(--ink);stroke-width:6}"),
            rule(
                ".F.out{fill:var(--out);opacity:.5}.F.k0{fill:var(--life);opacity:.6}.F.k1{fill:var(--life1);opacity:.6}.F.halt{fill:var(--ink)}",
            ),
            rule(
                ".K{stroke:var(--blue);stroke-width:2;fill:none}.K.up{stroke:var(--ok)}.K.no{stroke:var(--no)}.K.f{stroke:var(--bad)}.K.q{stroke:var(--grey)}",
            ),
            rule(
                ".high{max-height:680px}.key{display:flex;gap:14px;flex-wrap:wrap;color:var(--dim);font-size:12px;margin:4px 0}",
            ),
            rule(
                ".key span::before{content:'';display:inline-block;width:14px;height:8px;border-radius:2px;margin-right:5px;background:var(--blue)}",
            ),
            rule(
                ".key .k0::before{background:var(--life)}.key .k1::before{background:var(--life1)}.key .out::before{background:var(--out)}",
            ),
            rule(
                ".key .halt::before{background:var(--ink)}.key .up::before{background:var(--ok)}.key .no::before{background:var(--no)}",
            ),
            rule(
                ".key .f::before{background:var(--bad)}.key .q::before{background:var(--grey)}.T{stroke:var(--hint);stroke-dasharray:6 3;fill:none}",
            ),
            rule(
                ".A{stroke:var(--blue);stroke-width:1.6;fill:none}.A.up{stroke:var(--ok)}.A.no{stroke:var(--no);stroke-width:2.2}",
            ),
            rule(
                ".A.f{stroke:var(--bad);stroke-width:2.4}.A.q{stroke:var(--grey)}.A.half{stroke:var(--no);stroke-dasharray:4 3}.B{fill:var(--blue)}",
            ),
            rule(
                ".B.up{fill:var(--ok)}.B.no{fill:var(--no)}.B.f{fill:var(--bad)}.B.q{fill:var(--grey)}",
            ),
        ],
    )
}

// What is drawn in a map, with its key, and the table of its nodes.
#[tactic(auto, unfolding(crate::specs::Style::map_text))]
fn push_map_rules(out: &mut Vec<u8>) -> Result<(), AllocError>
    ensures { OnOk result (out.new.items ≡ out.old.items ++ spec_style.map_text) }
{
    push_rules(
        out,
        &[
            rule(
                ".W{stroke:var(--out);fill:none}.W.one{stroke-dasharray:5 4}.W.w2{stroke-width:1.8}.W.w3{stroke-width:2.6}.W.w4{stroke-width:3.4}",
            ),
            rule(
                ".W.w5{stroke-width:4.2}.W.w6{stroke-width:5}svg .H{paint-order:stroke;stroke:var(--card);stroke-width:4px}",
            ),
            rule(
                ".R{stroke:var(--blue);stroke-width:2;fill:none}.R.thin{stroke-width:1}.Z{fill:var(--blue)}marker{overflow:visible}",
            ),
            rule(".key .w::before{height:3px;background:var(--out)}"),
            rule(
                ".key .w1::before{height:3px;background:repeating-linear-gradient(90deg,var(--out) 0 5px,transparent 5px 9px)}",
            ),
            rule(
                ".key .hop::before{width:0;height:0;border:5px solid transparent;border-left:10px solid var(--blue);border-right:0;background:none}",
            ),
            rule(
                ".N{stroke:var(--grey);fill:var(--card)}.N.k0{fill:var(--life)}.N.k1{fill:var(--life1)}.N.halt{stroke:var(--ink);stroke-width:4}",
            ),
            rule(
                "table{border-collapse:collapse;font-variant-numeric:tabular-nums}th,td{text-align:left;padding:1px 18px 1px 0}tr.b{color:var(--bad)}",
            ),
        ],
    )
}

// On paper.
#[tactic(auto, unfolding(crate::specs::Style::print_text))]
fn push_print_rules(out: &mut Vec<u8>) -> Result<(), AllocError>
    ensures { OnOk result (out.new.items ≡ out.old.items ++ spec_style.print_text) }
{
    push_rules(
        out,
        &[
            rule(
                "@page{size:landscape;margin:10mm}@media print{body{zoom:.6;background:none;print-color-adjust:exact}.m,.card{overflow:visible}",
            ),
            rule(
                ".m,.tile,.card,summary{break-inside:avoid}h2{break-after:avoid}.high{max-height:none}}",
            ),
        ],
    )
}

/// Appends the style. It has no `<`, so nothing in it ends it.
pub fn push_style(out: &mut Vec<u8>) -> Result<(), AllocError>
    ensures { OnOk result (out.new.items ≡ out.old.items ++ spec_style.style_text) }
{
    push_colour_rules(out)?;
    push_content_rules(out)?;
    push_chart_rules(out)?;
    push_drawing_rules(out)?;
    push_map_rules(out)?;
    push_print_rules(out)
}
