//! How the shapes of each class look.

/// The style of bytes that are behind or unfilled, in pictures that show them.
pub const MARK_STYLE: &str = "<style>
.behind { fill: #c02000; }
.unfilled { fill: url(#hatch); }
</style>
<defs><pattern id=\"hatch\" width=\"4\" height=\"4\" patternUnits=\"userSpaceOnUse\">\
<path d=\"M1 0 V4\" stroke=\"#7030a0\" stroke-width=\"2\"/></pattern></defs>
";

/// The style of all pictures: letters have 12 pixels.
pub const STYLE: &str = "<style>
text { font-family: monospace; font-size: 12px; fill: #202020; }
.title { font-size: 14px; font-weight: bold; }
.name { font-weight: bold; }
rect { stroke: #404040; stroke-width: 1; }
.background { fill: #ffffff; stroke: none; }
.bar { fill: #f4f4f4; }
.mapped { fill: #b7d3ee; }
.lent { fill: #f6d68a; }
.ended { fill: #eab3a8; }
.stretches rect { stroke: none; }
.hole { fill: #ffffff; stroke-dasharray: 3 2; }
.group { fill: #dcdcec; }
.link { fill: none; stroke: #5a7fa8; stroke-width: 1; }
.kept { fill: none; stroke: #a05040; stroke-width: 1; stroke-dasharray: 4 3; }
.arrow { fill: none; stroke: #a03020; stroke-width: 1; marker-end: url(#head); }
</style>
<defs><marker id=\"head\" markerWidth=\"8\" markerHeight=\"8\" refX=\"6\" refY=\"3\" orient=\"auto\">\
<path d=\"M0 0 L6 3 L0 6 z\" fill=\"#a03020\"/></marker></defs>
";
