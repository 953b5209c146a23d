//! The texts of a chart that are always the same.

ghost use Rattle.std.specs.Prelude.{◌≡◌};
ghost use Rattle.code_chart.specs.Texts.{style, svg_style_lead, svg_ground, cell_legend, sign_legend, function_legend, quad_legend, page_style_lead, page_style_end, page_legend, page_end};

/// How a chart looks, behind the size of the page.
#[tactic(auto, unfolding(crate::specs::Texts::style))]
pub(crate) fn style() -> &'static str
    ensures { result.now ≡ style }
{
    "\
text{font-family:'Times New Roman',Times,serif;font-size:20px;text-anchor:middle;fill:#1a1a1a}\n\
path{fill:none;stroke:#1a1a1a;stroke-width:6;stroke-linecap:round}\n\
.p{fill:#f6edd2;stroke:#cdbd91}\n\
.d{stroke:#9c9376;stroke-width:2;stroke-dasharray:0 18}\n\
.c,.n,.g,.o,.w,.h,.i{font-family:Helvetica,Arial,sans-serif}\n\
.c{font-size:13px;font-weight:bold;fill:#1256a8}\n\
.n{font-size:10px;fill:#55585e}\n\
.w{font-size:9px;text-anchor:start;fill:#66696f}\n\
.g{font-size:9px;text-anchor:start;fill:#7a4b00}\n\
.o{font-size:9px;text-anchor:start}\n\
.i{font-size:11px;text-anchor:start;fill:#55585e}\n\
.h{font-size:16px;font-weight:bold;text-anchor:start}\n\
.m{fill:#ffffff;stroke:#d5d9df}\n\
.v{fill:#fadcdc;stroke:#c00000}\n\
.x{fill:#c00000}\n\
.z{fill:#fdfcf8}\n\
"
}

/// What begins the style of a document.
#[tactic(auto, unfolding(crate::specs::Texts::svg_style_lead))]
pub(crate) fn svg_style_lead() -> &'static str
    ensures { result.now ≡ svg_style_lead }
{
    "<style type='text/css'>\n"
}

/// The end of its style, and the ground.
#[tactic(auto, unfolding(crate::specs::Texts::svg_ground))]
pub(crate) fn svg_ground() -> &'static str
    ensures { result.now ≡ svg_ground }
{
    "\
</style>\n\
<rect class='z' width='100%' height='100%'/>\n\
"
}

/// How a cell reads.
#[tactic(auto, unfolding(crate::specs::Texts::cell_legend))]
pub(crate) fn cell_legend() -> &'static str
    ensures { result.now ≡ cell_legend }
{
    "In each cell the holes, level 0 on top, and the number | above the meaning unshifted, below it the meaning shifted, each with its width in units"
}

/// What is marked.
#[tactic(auto, unfolding(crate::specs::Texts::sign_legend))]
pub(crate) fn sign_legend() -> &'static str
    ensures { result.now ≡ sign_legend }
{
    "red: no meaning, or a matrix without a width | = 5: combination 5 means the same, unshifted or shifted"
}

/// What the marks of functions stand for.
#[tactic(auto, unfolding(crate::specs::Texts::function_legend))]
pub(crate) fn function_legend() -> &'static str
    ensures { result.now ≡ function_legend }
{
    "SB spaceband | SH shift | UN unshift | EL elevate, which ends a line | RT return | UR upper rail | LR lower rail"
}

/// What the others stand for.
#[tactic(auto, unfolding(crate::specs::Texts::quad_legend))]
pub(crate) fn quad_legend() -> &'static str
    ensures { result.now ≡ quad_legend }
{
    "QL QC QR quad left, center, right | TH EN EM thin, en, em space | IG ignored"
}

/// The end of the title of a page, and what begins its style.
#[tactic(auto, unfolding(crate::specs::Texts::page_style_lead))]
pub(crate) fn page_style_lead() -> &'static str
    ensures { result.now ≡ page_style_lead }
{
    "\
</title>\n\
<style>\n\
"
}

/// How a page looks round its cells, and what begins its heading.
#[tactic(auto, unfolding(crate::specs::Texts::page_style_end))]
pub(crate) fn page_style_end() -> &'static str
    ensures { result.now ≡ page_style_end }
{
    "\
@page{size:auto;margin:10mm}\n\
:root{color-scheme:only light;-webkit-print-color-adjust:exact;print-color-adjust:exact}\n\
body{max-width:840px;margin:0 auto;padding:16px;background:#fdfcf8;color:#1a1a1a;font-family:Helvetica,Arial,sans-serif}\n\
h1{font-size:1.25em;overflow-wrap:anywhere}\n\
p{font-size:.85em;line-height:1.5}\n\
main{display:grid;grid-template-columns:repeat(auto-fill,minmax(100px,1fr))}\n\
main>svg{display:block;width:100%;break-inside:avoid}\n\
@media print{main{grid-template-columns:repeat(8,1fr)}}\n\
</style>\n\
</head>\n\
<body>\n\
<h1>"
}

/// The end of its heading, what the marks stand for, and what begins its cells.
#[tactic(auto, unfolding(crate::specs::Texts::page_legend))]
pub(crate) fn page_legend() -> &'static str
    ensures { result.now ≡ page_legend }
{
    "\
</h1>\n\
<p>In each cell the holes, level 0 on top, and the number | above the meaning unshifted, below it the meaning shifted, each with its width in units<br>\n\
red: no meaning, or a matrix without a width | = 5: combination 5 means the same, unshifted or shifted<br>\n\
SB spaceband | SH shift | UN unshift | EL elevate, which ends a line | RT return | UR upper rail | LR lower rail<br>\n\
QL QC QR quad left, center, right | TH EN EM thin, en, em space | IG ignored</p>\n\
<main>\n\
"
}

/// The end of a page.
#[tactic(auto, unfolding(crate::specs::Texts::page_end))]
pub(crate) fn page_end() -> &'static str
    ensures { result.now ≡ page_end }
{
    "\
</main>\n\
</body>\n\
</html>\n\
"
}
